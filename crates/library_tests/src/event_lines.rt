//! The line of each kind of event.

use crate::recorders::write_events;
use std::alloc::Global;
use std::process::Abort;
use std::test::Fail;
use trace_text::line_of;
use tt_base::{Call, Event, IsrNo, ModeNo, Name, NameKind, Names, OisrNo, OsekNo, Owner, TaskNo};
use tt_io::MemSink;

/// A mode m, a task A, a routine K, and of the OSEK subsystem a task P and a routine X.
pub(crate) fn example(alloc: Global) -> Result<Names, Fail> {
    let mut names = Names::new(alloc);
    names.add(NameKind::Mode, Name::new(b"m").ok_or("no name")?)?;
    names.add(NameKind::Task, Name::new(b"A").ok_or("no name")?)?;
    names.add(NameKind::Isr, Name::new(b"K").ok_or("no name")?)?;
    names.add(NameKind::Osek, Name::new(b"P").ok_or("no name")?)?;
    names.add(NameKind::Oisr, Name::new(b"X").ok_or("no name")?)?;
    Ok(names)
}

pub(crate) const M: ModeNo = ModeNo(0);

pub(crate) const A: TaskNo = TaskNo(0);

const K: IsrNo = IsrNo(0);

const P: OsekNo = OsekNo(0);

const X: OisrNo = OisrNo(0);

pub(crate) const BY_A: Owner = Owner::Task(A);

const BY_K: Owner = Owner::Isr(K);

const BY_P: Owner = Owner::Osek(P);

const BY_X: Owner = Owner::Oisr(X);

/// What the dispatcher does, and how a run ends.
const DISPATCHER: [(Event, &[u8]); 13] = [
    (Event::OsStart { at: 0, mode: M }, b"0 os start m\n"),
    (
        Event::Round {
            at: 20,
            number: 2,
            mode: M,
        },
        b"20 round 2 m\n",
    ),
    (Event::Correct { at: 15, by: -3 }, b"15 correct -3\n"),
    (Event::Correct { at: 32, by: 5 }, b"32 correct +5\n"),
    (
        Event::Check {
            at: 5,
            task: A,
            met: true,
        },
        b"5 check A met\n",
    ),
    (
        Event::Check {
            at: 5,
            task: A,
            met: false,
        },
        b"5 check A missed\n",
    ),
    (Event::Enable { at: 8, isr: K }, b"8 enable K\n"),
    (Event::Activate { at: 0, task: A }, b"0 activate A\n"),
    (
        Event::ErrorHook { at: 5, task: A },
        b"5 hook ttErrorHook A\n",
    ),
    (Event::ShutdownHook { at: 5 }, b"5 hook ttShutdownHook\n"),
    (Event::Shutdown { at: 5 }, b"5 shutdown\n"),
    (Event::Stop { at: 10 }, b"10 stop\n"),
    (Event::Stop { at: u64::MAX }, b"18446744073709551615 stop\n"),
];

/// What is done by an owner, or to a source.
const OWNERS: [(Event, &[u8]); 9] = [
    (
        Event::Arrive {
            at: 1,
            source: BY_K,
        },
        b"1 arrive K\n",
    ),
    (
        Event::Merge {
            at: 5,
            source: BY_K,
        },
        b"5 merge K\n",
    ),
    (
        Event::Accept {
            at: 3,
            source: BY_X,
        },
        b"3 accept X\n",
    ),
    (Event::Run { at: 0, who: BY_A }, b"0 run A\n"),
    (
        Event::Run {
            at: 3,
            who: Owner::Idle,
        },
        b"3 run idle\n",
    ),
    (
        Event::End {
            at: 27,
            owner: BY_P,
        },
        b"27 end P\n",
    ),
    (
        Event::Out {
            at: 5,
            owner: BY_A,
            value: i32::MAX,
        },
        b"5 out A 2147483647\n",
    ),
    (
        Event::Out {
            at: 6,
            owner: Owner::ErrorHook,
            value: -1,
        },
        b"6 out ttErrorHook -1\n",
    ),
    (
        Event::Out {
            at: 2,
            owner: Owner::ShutdownHook,
            value: 7,
        },
        b"2 out ttShutdownHook 7\n",
    ),
];

/// Who calls which service at tick 7, and what it answers.
const CALLS: [(Owner, Call, u8, &[u8]); 6] = [
    (BY_A, Call::Switch(M), 0, b"7 call A ttSwitchAppMode m 0\n"),
    (BY_K, Call::Sync, 1, b"7 call K ttSyncTimes 1\n"),
    (BY_A, Call::Shutdown, 0, b"7 call A ttShutdownOS 0\n"),
    (BY_X, Call::Activate(P), 4, b"7 call X ActivateTask P 4\n"),
    (BY_P, Call::Chain(P), 0, b"7 call P ChainTask P 0\n"),
    (BY_P, Call::Terminate, 0, b"7 call P TerminateTask 0\n"),
];

/// An event has this line, by itself and on the way to a sink.
fn check_line(
    rt: &impl Abort,
    alloc: Global,
    names: &Names,
    event: Event,
    line: &[u8],
) -> Result<(), Fail> {
    assert_eq!(rt; line_of(&event, names).as_bytes(), line);
    let mut sink = MemSink::new(alloc, 100, 100, Vec::new(alloc))?;
    write_events(&mut sink, &[event], names)?;
    assert_eq!(rt; sink.as_bytes(), line);
    Ok(())
}

#[test]
fn each_event_has_its_line(rt: HostRuntime) -> Result<(), Fail> {
    let names = example(rt.alloc())?;
    for (event, line) in DISPATCHER {
        check_line(&rt, rt.alloc(), &names, event, line)?;
    }
    for (event, line) in OWNERS {
        check_line(&rt, rt.alloc(), &names, event, line)?;
    }
    for (owner, call, answer, line) in CALLS {
        let event = Event::Called {
            at: 7,
            owner,
            call,
            result: answer,
        };
        check_line(&rt, rt.alloc(), &names, event, line)?;
    }
    Ok(())
}
