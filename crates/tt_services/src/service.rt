//! One service.

ghost use Rattle.std.specs.Prelude.{◌≡◌, ◌<◌, ◌==◌, false, true, length};
ghost use Rattle.tt_world.specs.Services.{is_shutdown};
ghost use Rattle.osek_idle.specs.Standing.{IsSound, setup_of, subsystem_of, task_body};
ghost use Rattle.osek_idle.specs.Subsystem.{chained, chain_result, suspended};
ghost use Rattle.tt_services.specs.Performed.{performed, caller_of, IsOsek, MayCall};

use osek_idle::Osek;
use round_end::RoundState;
use task_machine::Codes;
use tt_base::{Call, OsekNo, Owner, Tick};

/// What a service answers its caller.
#[derive(Clone, Copy)]
pub struct Answer {
    pub result: u8,
    /// Whether the caller ends: by TerminateTask, or by a ChainTask with result 0.
    pub caller_ends: bool,
    /// Whether the run ends: by ttShutdownOS.
    pub shutdown: bool,
}

/// A service that an owner calls at a tick. It takes no memory.
pub fn perform(
    call: Call,
    owner: Owner,
    now: Tick,
    round: &mut RoundState,
    osek: &mut Osek,
    codes: &Codes,
) -> Answer
    requires may { MayCall now owner call round.old (setup_of osek.old) }
    requires sound { IsSound codes.now osek.old }
    ensures result { result.result
        ≡ (performed (task_body codes.now (setup_of osek.old)) now owner call round.old
        (subsystem_of codes.now osek.old)).result }
    ensures ends { result.caller_ends
        ≡ (performed (task_body codes.now (setup_of osek.old)) now owner call round.old
        (subsystem_of codes.now osek.old)).ends }
    ensures shutdown { result.shutdown ≡ is_shutdown call }
    ensures round { round.new
        ≡ (performed (task_body codes.now (setup_of osek.old)) now owner call round.old
        (subsystem_of codes.now osek.old)).round }
    ensures state { subsystem_of codes.now osek.new
        ≡ (performed (task_body codes.now (setup_of osek.old)) now owner call round.old
        (subsystem_of codes.now osek.old)).subsystem }
    ensures setup { setup_of osek.new ≡ setup_of osek.old }
    ensures sound { IsSound codes.now osek.new }
{
    match call {
        Call::Switch(mode) => {
            round.want_mode(mode);
            answered(0)
        }
        Call::Sync => answered(round.sync(now)),
        Call::Shutdown => Answer {
            result: 0,
            caller_ends: false,
            shutdown: true,
        },
        Call::Activate(task) => answered(osek.activate(codes, task)),
        Call::Chain(task) => chain(osek, codes, owner, task),
        Call::Terminate => terminate(osek, codes, owner),
    }
}

/// An answer to a caller that goes on.
fn answered(number: u8) -> Answer
    ensures { result ≡ record { result = number; caller_ends = false; shutdown = false } }
{
    Answer {
        result: number,
        caller_ends: false,
        shutdown: false,
    }
}

/// ChainTask: the caller ends where the result is 0.
fn chain(osek: &mut Osek, codes: &Codes, owner: Owner, task: OsekNo) -> Answer
    requires caller { IsOsek owner }
    requires exists { task.0 < length (setup_of osek.old).tasks }
    requires sound { IsSound codes.now osek.old }
    ensures result { result.result
        ≡ chain_result (caller_of owner) task.0 (subsystem_of codes.now osek.old) }
    ensures ends { result.caller_ends
        ≡ (chain_result (caller_of owner) task.0 (subsystem_of codes.now osek.old) == 0) }
    ensures shutdown { result.shutdown ≡ false }
    ensures state { subsystem_of codes.now osek.new
        ≡ chained (task_body codes.now (setup_of osek.old) task.0) (caller_of owner) task.0
        (subsystem_of codes.now osek.old) }
    ensures setup { setup_of osek.new ≡ setup_of osek.old }
    ensures sound { IsSound codes.now osek.new }
{
    match owner {
        Owner::Osek(caller) => {
            let number = osek.chain(codes, caller, task);
            Answer {
                result: number,
                caller_ends: number == 0,
                shutdown: false,
            }
        }
        _ => answered(0),
    }
}

/// TerminateTask: the caller ends.
fn terminate(osek: &mut Osek, codes: &Codes, owner: Owner) -> Answer
    requires caller { IsOsek owner }
    requires sound { IsSound codes.now osek.old }
    ensures answer { result ≡ record { result = 0; caller_ends = true; shutdown = false } }
    ensures state { subsystem_of codes.now osek.new
        ≡ suspended (caller_of owner) (subsystem_of codes.now osek.old) }
    ensures setup { setup_of osek.new ≡ setup_of osek.old }
    ensures sound { IsSound codes.now osek.new }
{
    match owner {
        Owner::Osek(caller) => Answer {
            result: osek.terminate(caller),
            caller_ends: true,
            shutdown: false,
        },
        _ => answered(0),
    }
}
