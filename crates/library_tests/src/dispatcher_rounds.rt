//! Dispatcher rounds of small documents.

ghost use Rattle.std.specs.Prelude.{◌<◌, ◌^◌, length};

use round_end::{RoundState, RoundStep};
use std::alloc::Global;
use std::test::Fail;
use tt_base::{ModeNo, Tick};
use tt_config::{Accepted, accept};
use tt_read::read;
use tt_world::ScriptParts;

const M: ModeNo = ModeNo(0);

const N: ModeNo = ModeNo(1);

/// Four rounds, of which three get a global time.
const TIMES: &[u8] = b"osektime 1
round 20
adjust 5
mode m
mode n
start m
rounds 4
time 3
time 11
time 10
";

/// Two rounds, with one global time.
const LATE: &[u8] = b"osektime 1
round 20
adjust 5
mode m
start m
rounds 2
time 18
";

/// Round 1 of the run of a document, where another mode is wanted.
fn first_round(alloc: Global, document: &[u8], wanted: ModeNo) -> Result<RoundState, Fail>
    requires { length document.now < 2 ^ 32 }
{
    let rows = read(alloc, document)?;
    let Accepted { config, script } = accept(alloc, rows)?;
    let ScriptParts {
        start,
        rounds,
        values: _,
        arrivals: _,
        times,
    } = script.into_parts();
    let modes = config.parts().modes.len();
    let mut state = RoundState::new(&config, start, rounds, times);
    if usize::from(wanted.0) < modes {
        state.want_mode(wanted);
    }
    Ok(state)
}

/// The tick of the latch, the correction that it takes, and the tick of the round's end.
fn latched(state: &mut RoundState) -> Result<(Tick, i64, Tick), Fail> {
    let at = state.next_own();
    if state.length().is_some() {
        return Err("latched".into());
    }
    let correction = state.latch();
    Ok((at, correction, state.next_own()))
}

/// The round's end at its tick.
fn end(state: &mut RoundState) -> Result<RoundStep, Fail> {
    let now = state.next_own();
    match state.length() {
        Some(_) => Ok(state.end_round(now)),
        None => Err("not latched".into()),
    }
}

#[test]
fn global_times_correct_rounds(rt: HostRuntime) -> Result<(), Fail> {
    let mut state = first_round(rt.alloc(), TIMES, N)?;
    assert_eq!(rt; (state.number(), state.mode()), (1, M));
    for (answer, times, step) in [
        (0, (15, -3, 17), RoundStep::Next(2, N)),
        (0, (32, 5, 42), RoundStep::Next(3, N)),
        (0, (57, -5, 57), RoundStep::Next(4, N)),
        (1, (72, 0, 77), RoundStep::Last),
    ] {
        let start = state.start();
        assert_eq!(rt; state.offset(start), 0);
        assert_eq!(rt; state.sync(start), answer);
        assert_eq!(rt; latched(&mut state)?, times);
        assert_eq!(rt; end(&mut state)?, step);
    }
    assert_eq!(rt; (state.number(), state.mode()), (4, N));
    Ok(())
}

#[test]
fn a_global_time_after_the_latch_corrects_the_next_round(rt: HostRuntime) -> Result<(), Fail> {
    let mut state = first_round(rt.alloc(), LATE, M)?;
    assert_eq!(rt; latched(&mut state)?, (15, 0, 20));
    assert!(rt; state.start() <= 16);
    assert_eq!(rt; state.sync(16), 0);
    assert_eq!(rt; end(&mut state)?, RoundStep::Next(2, M));
    assert_eq!(rt; latched(&mut state)?, (35, -2, 38));
    assert_eq!(rt; end(&mut state)?, RoundStep::Last);
    Ok(())
}
