//! A stack with two tasks and two routines.

use run_stack::RunStack;
use task_machine::Frame;
use tt_base::{IsrNo, Owner, TaskNo};

const PLAN: TaskNo = TaskNo(0);

const WHEEL: TaskNo = TaskNo(1);

const CAN_RX: IsrNo = IsrNo(0);

const SPEED: IsrNo = IsrNo(1);

fn running(stack: &RunStack) -> Owner {
    match stack.top() {
        Some(top) => top.owner,
        None => Owner::Idle,
    }
}

#[test]
fn routines_end_by_level_and_then_tasks_from_the_last(rt: HostRuntime) {
    let frame = Frame::default();
    let mut stack = RunStack::new();
    stack.push_task(PLAN, frame, 256);
    stack.push_task(WHEEL, frame, 128);
    assert!(rt; !stack.holds(Owner::Isr(SPEED)));
    stack.accept_isr(SPEED, 3, frame, 64);
    assert!(rt; stack.holds(Owner::Isr(SPEED)));
    assert!(rt; !stack.holds(Owner::Isr(CAN_RX)));
    stack.accept_isr(CAN_RX, 2, frame, 64);
    assert!(rt; stack.depth() > 0);
    stack.set_top(frame);
    for (owner, depth, words) in [
        (Owner::Isr(SPEED), 4, 512),
        (Owner::Isr(CAN_RX), 3, 448),
        (Owner::Task(WHEEL), 2, 384),
        (Owner::Task(PLAN), 1, 256),
    ] {
        assert_eq!(rt; running(&stack), owner);
        assert_eq!(rt; (stack.depth(), stack.words()), (depth, words));
        assert!(rt; stack.depth() > 0);
        stack.pop();
    }
    assert_eq!(rt; running(&stack), Owner::Idle);
    assert_eq!(rt; stack.depth(), 0);
    stack.push_task(PLAN, frame, 256);
    stack.clear_tasks();
    assert_eq!(rt; (stack.depth(), stack.words()), (0, 0));
}
