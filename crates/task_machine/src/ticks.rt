//! The ticks of a frame.

ghost use Rattle.std.specs.Prelude.{◌≡◌, ◌≢◌, ◌≤◌, ◌<◌, ◌+◌, ◌↔◌, ℕ, ℤ, List, [], ◌∷◌, length, max, slice_get, Some, None, IsTrue, OnSome, MatchOption, option_to_list};
ghost use Rattle.task_lang.specs.declared.syntax.Stmt.{Stmt};
ghost use Rattle.task_lang.specs.Tick.{Supply, supply_of, state_of, tick, ticks};
ghost use Rattle.task_machine.specs.Layout.{AreInRange};
ghost use Rattle.task_machine.specs.Place.{Rests, take_in};
ghost use Rattle.task_machine.specs.Standing.{IsAt, IsSound, left_of, program_of, work_in_front};
ghost use Rattle.task_machine.specs.Ticking.{Stepped, Advanced, begin};

use crate::codes::Codes;
use crate::env::Env;
use crate::expr::evaluate;
use crate::frame::Frame;
use crate::instr::Instr;
use crate::rest::settle;
use task_lang::{Cursors, Demands, Effect, Values, Vars, take};
use tt_base::{DemandNo, Ledger, Steps};

/// What the ticks of a frame did.
#[derive(Clone, Copy)]
pub struct Progress {
    /// What was put out or called: None exactly where the statement was no `out` and no service.
    pub effect: Option<Effect>,
    /// Whether nothing is left.
    pub ended: bool,
}

/// Where a tick leads, before places that take no time are passed, and what it does.
#[derive(Clone, Copy)]
struct Step {
    place: usize,
    effect: Option<Effect>,
}

/// Takes k ticks of the list that a frame stands for: one, or at most as many as the `work` at its
/// front has left. It counts one step and takes no memory. A variable or a demand that does not
/// exist counts as 0 and keeps nothing.
pub fn advance<L: Ledger>(
    frame: &mut Frame,
    codes: &Codes,
    k: u64,
    env: &mut Env,
    steps: &mut Steps<L>,
) -> Progress
    requires sound { IsSound codes.now frame.old }
    requires left { left_of codes.now frame.old ≢ [] }
    requires some { 1 ≤ k }
    requires within { k ≤ max 1 (work_in_front (left_of codes.now frame.old)) }
    ensures sound { IsSound codes.now frame.new }
    ensures program { program_of frame.new ≡ program_of frame.old }

    // The list, the variables, the cursors and the effect are those of k ticks of the list.
    ensures ticks { state_of (left_of codes.now frame.new) env.new.vars env.new.cursors
        (option_to_list result.effect)
        ≡ ticks (supply_of env.old.demands env.old.values) k
        (state_of (left_of codes.now frame.old) env.old.vars env.old.cursors []) }
    ensures demands { env.new.demands ≡ env.old.demands }
    ensures values { env.new.values ≡ env.old.values }
    ensures ended { IsTrue result.ended ↔ (left_of codes.now frame.new ≡ []) }
    ensures counted { steps.new ≡ steps.old + 1 }
{
    steps.tick();
    let code = codes.instrs(frame.program);
    let effect = take_ticks(
        frame,
        code,
        k,
        &mut env.vars,
        &mut env.cursors,
        &env.demands,
        &env.values,
    );
    Progress {
        effect,
        ended: frame.ended,
    }
}

/// k ticks of a frame in its code.
fn take_ticks(
    frame: &mut Frame,
    code: &[Instr],
    k: u64,
    vars: &mut Vars,
    cursors: &mut Cursors,
    demands: &Demands,
    values: &Values,
) -> Option<Effect>
    requires range { AreInRange code.now }
    requires some { 1 ≤ k }
    requires within { k ≤ max 1 frame.old.work }
    ensures program { frame.new.program ≡ frame.old.program }
    ensures ticks { (l : List Stmt) → IsAt code.now frame.old l → l ≢ []
        → Advanced code.now frame.new vars.new cursors.new result
        (ticks (supply_of demands.now values.now) k (begin l vars.old cursors.old)) }
{
    if frame.work > 0 {
        work_on(frame, code, k);
        return None;
    }
    match demand_at(code, frame.place) {
        Some(demand) => {
            draw(frame, code, demand, cursors, demands, values);
            None
        }
        None => {
            let step = take_step(code, frame.place, &mut frame.counters, vars);
            settle(frame, code, step.place);
            step.effect
        }
    }
}

/// k ticks of the `work` that was begun.
fn work_on(frame: &mut Frame, code: &[Instr], k: u64)
    requires range { AreInRange code.now }
    requires some { 1 ≤ k }
    requires within { k ≤ frame.old.work }
    ensures program { frame.new.program ≡ frame.old.program }
    ensures ticks { (l : List Stmt) (supply : Supply) (vars : List ℤ) (cursors : List ℕ)
        → IsAt code.now frame.old l
        → Advanced code.now frame.new vars cursors None (ticks supply k (begin l vars cursors)) }
{
    frame.work -= k;
    if frame.work == 0 {
        settle(frame, code, frame.place);
    }
}

/// One tick of a `take`.
fn draw(
    frame: &mut Frame,
    code: &[Instr],
    demand: DemandNo,
    cursors: &mut Cursors,
    demands: &Demands,
    values: &Values,
)
    requires range { AreInRange code.now }
    requires idle { frame.old.work ≡ 0 }
    requires there { frame.old.place < length code.now }
    requires here { slice_get code.now frame.old.place ≡ Some (Instr.Take demand) }
    ensures program { frame.new.program ≡ frame.old.program }
    ensures ticks { (l : List Stmt) (vars : List ℤ) → IsAt code.now frame.old l
        → Advanced code.now frame.new vars cursors.new None
        (tick (supply_of demands.now values.now) (begin l vars cursors.old)) }
{
    let given = take(cursors, demand, demands, values);
    if given == 0 {
        settle(frame, code, frame.place + 1);
    } else {
        frame.place += 1;
        frame.work = given;
    }
}

/// One tick of another statement at a place.
fn take_step(code: &[Instr], place: usize, counters: &mut [u16; 4], vars: &mut Vars) -> Step
    requires { AreInRange code.now }
    ensures { (l : List Stmt) (supply : Supply) (cursors : List ℕ)
        → Rests code.now counters.old l place 0
        → l ≢ [] → take_in (slice_get code.now place) ≡ None
        → Stepped code.now counters.new result.place vars.new cursors result.effect
        (tick supply (begin l vars.old cursors)) }
{
    match instr_at(code, place) {
        None => silent(place),
        Some(instr) => match instr {
            Instr::Set(var) => {
                let (value, after) = evaluate(code, place + 1, vars);
                vars.assign(var, value);
                silent(after)
            }
            Instr::Out => {
                let (value, after) = evaluate(code, place + 1, vars);
                Step {
                    place: after,
                    effect: Some(Effect::Out(value)),
                }
            }
            Instr::Service(call) => Step {
                place: place + 1,
                effect: Some(Effect::Service(call)),
            },
            Instr::If(passed) => {
                let (value, after) = evaluate(code, place + 1, vars);
                if value == 0 {
                    silent(after + passed)
                } else {
                    silent(after)
                }
            }
            Instr::Repeat(counter, turns) => {
                counters[counter as usize] = turns - 1;
                silent(place + 1)
            }
            Instr::Again(counter, back) => {
                let left = counters[counter as usize];
                if left > 0 {
                    counters[counter as usize] = left - 1;
                    silent(place - back)
                } else {
                    silent(place)
                }
            }
            Instr::Work(_) => silent(place),
            Instr::Take(_) => silent(place),
            Instr::Skip(_) => silent(place),
            Instr::Term(_) => silent(place),
        },
    }
}

fn silent(place: usize) -> Step
    ensures place { result.place ≡ place }
    ensures effect { result.effect ≡ None }
{
    Step {
        place,
        effect: None,
    }
}

fn demand_at(code: &[Instr], place: usize) -> Option<DemandNo>
    ensures demand { result ≡ take_in (slice_get code.now place) }
    ensures there { OnSome result (place < length code.now) }
    ensures here { MatchOption result (Unit {0})
        (λ demand. slice_get code.now place ≡ Some (Instr.Take demand)) }
{
    match instr_at(code, place) {
        Some(Instr::Take(demand)) => Some(demand),
        _ => None,
    }
}

fn instr_at(code: &[Instr], place: usize) -> Option<Instr>
    ensures at { result ≡ slice_get code.now place }
    ensures within { OnSome result (place < length code.now) }
{
    match code.get(place) {
        None => None,
        Some(instr) => Some(*instr),
    }
}
