//! Places that take no time.

ghost use Rattle.std.specs.Prelude.{◌≡◌, ◌≤◌, ◌<◌, ◌+◌, ◌^◌, ◌↔◌, ℕ, List, [], ◌∷◌, length, slice_get, Some, OnSome, MatchOption, IsTrue};
ghost use Rattle.task_lang.specs.declared.syntax.Stmt.{Stmt};
ghost use Rattle.task_machine.specs.Layout.{AreInRange, IsInRange};
ghost use Rattle.task_machine.specs.Place.{Left, Rests, at_none, passes, work_in};
ghost use Rattle.task_machine.specs.Standing.{IsAt};

use crate::frame::Frame;
use crate::instr::Instr;

/// Moves a frame from a place to the next one where a tick is taken. A `work` there is begun.
pub(crate) fn settle(frame: &mut Frame, code: &[Instr], start: usize)
    requires { AreInRange code.now }
    ensures program { frame.new.program ≡ frame.old.program }
    ensures at { (d : ℕ) (l : List Stmt) → Left code.now frame.old.counters d start l
        → IsAt code.now frame.new l }
{
    let (place, work) = resting_place(code, start, &frame.counters);
    frame.place = place;
    frame.work = work;
    frame.ended = is_end(code, place, work);
}

/// Whether nothing is left at a place, where this much work is begun before it.
fn is_end(code: &[Instr], place: usize, work: u64) -> bool
    requires { AreInRange code.now }
    ensures { (counters : List ℕ) (l : List Stmt) → Rests code.now counters l place work
        → IsTrue result ↔ (l ≡ []) }
{
    work == 0 && place >= code.len()
}

/// The next place where a tick is taken, and the work begun before it.
fn resting_place(code: &[Instr], start: usize, counters: &[u16; 4]) -> (usize, u64)
    requires { AreInRange code.now }
    ensures { (d : ℕ) (l : List Stmt) → Left code.now counters.now d start l
        → Rests code.now counters.now l result.0 result.1 }
{
    let mut place = start;
    while let Some(passed) = passed_at(code, place, counters) {
        place += passed;
    }
    let work = work_at(code, place);
    if work == 0 {
        (place, 0)
    } else {
        (place + 1, work)
    }
}

/// How many instructions are passed at a place in no time. None where it takes time.
fn passed_at(code: &[Instr], place: usize, counters: &[u16; 4]) -> Option<usize>
    requires { AreInRange code.now }
    ensures passes { result ≡ passes counters.now (slice_get code.now place) }
    ensures some { OnSome result (place < length code.now) }
    ensures few { MatchOption result (Unit {0}) (λ n. (1 ≤ n) × (n ≤ length code.now + 1)) }
{
    match code.get(place) {
        None => None,
        Some(instr) => passed_by(*instr, counters, code.len(), place),
    }
}

fn passed_by(instr: Instr, counters: &[u16; 4], len: usize, place: usize) -> Option<usize>
    requires range { IsInRange len place instr }
    requires short { len < 2 ^ 48 }
    ensures passes { result ≡ passes counters.now (Some instr) }
    ensures few { MatchOption result (Unit {0}) (λ n. (1 ≤ n) × (n ≤ len + 1)) }
{
    match instr {
        Instr::Skip(passed) => Some(passed + 1),
        Instr::Again(counter, _) => once_at_zero(counters[counter as usize]),
        _ => None,
    }
}

fn once_at_zero(turns: u16) -> Option<usize>
    ensures { result ≡ at_none turns }
{
    if turns == 0 { Some(1) } else { None }
}

fn work_at(code: &[Instr], place: usize) -> u64
    ensures work { result ≡ work_in (slice_get code.now place) }
    ensures some { 0 < result → place < length code.now }
{
    match code.get(place) {
        None => 0,
        Some(instr) => work_of(*instr),
    }
}

fn work_of(instr: Instr) -> u64
    ensures { result ≡ work_in (Some instr) }
{
    match instr {
        Instr::Work(ticks) => ticks,
        _ => 0,
    }
}
