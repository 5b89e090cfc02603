//! Sources with a few arrivals.

use isr_window::{Busy, Gates};
use std::alloc::Global;
use std::test::Fail;
use tt_base::{IsrNo, OisrNo, Owner, Series, Tick};
use tt_world::Arrivals;

// The sources J and H are time-triggered, and X is of the OSEK subsystem.
const J: Owner = Owner::Isr(IsrNo(0));

const H: Owner = Owner::Isr(IsrNo(1));

const X: Owner = Owner::Oisr(OisrNo(0));

fn ticks(alloc: Global, items: &[Tick]) -> Result<Series<Tick>, Fail> {
    Ok(Series::from_vec(items.to_vec(alloc)?))
}

/// J has an arrival at 2, and H and X have arrivals at 1 and 2.
fn sources(alloc: Global) -> Result<Gates, Fail> {
    let mut isrs = Series::new(alloc);
    isrs.push(ticks(alloc, &[2])?)?;
    isrs.push(ticks(alloc, &[1, 2])?)?;
    let mut oisrs = Series::new(alloc);
    oisrs.push(ticks(alloc, &[1, 2])?)?;
    Ok(Gates::new(Arrivals { isrs, oisrs }))
}

/// The next arrival: its tick, its source, and whether it was merged with one that is held.
fn next(gates: &mut Gates) -> Option<(Tick, Owner, bool)> {
    let now = gates.next_arrival()?;
    let arrived = gates.arrive(now)?;
    Some((now, arrived.source, arrived.merged))
}

#[test]
fn arrivals_come_by_tick_and_source(rt: HostRuntime) -> Result<(), Fail> {
    let mut gates = sources(rt.alloc())?;
    for arrival in [
        Some((1, H, false)),
        Some((1, X, false)),
        Some((2, J, false)),
        Some((2, H, true)),
        Some((2, X, true)),
        None,
    ] {
        assert_eq!(rt; next(&mut gates), arrival);
    }
    Ok(())
}

/// What is done to the sources.
#[derive(Clone, Copy)]
enum Step {
    /// The next arrival is taken.
    Arrive,
    /// A time-triggered source is enabled.
    Enable(IsrNo),
    /// An interrupt is accepted, where no routine is unfinished or this one is.
    Accept(Option<Owner>),
}

fn busy_with(routine: Option<Owner>) -> Busy {
    let mut busy = Busy::new();
    match routine {
        Some(Owner::Isr(isr)) if isr.0 < 16 => busy.mark(Owner::Isr(isr)),
        Some(Owner::Oisr(isr)) if isr.0 < 16 => busy.mark(Owner::Oisr(isr)),
        _ => {}
    }
    busy
}

/// The source whose interrupt arrives or is accepted, if one does.
fn take(gates: &mut Gates, step: Step) -> Option<Owner> {
    match step {
        Step::Arrive => {
            let (_, source, _) = next(gates)?;
            Some(source)
        }
        Step::Enable(isr) => {
            gates.enable(isr);
            None
        }
        Step::Accept(routine) => gates.accept_next(&busy_with(routine)),
    }
}

#[test]
fn interrupts_wait_for_a_routine_and_an_enable(rt: HostRuntime) -> Result<(), Fail> {
    assert!(rt; busy_with(Some(X)).is(X));
    let mut gates = sources(rt.alloc())?;
    for (step, source) in [
        (Step::Arrive, Some(H)),
        (Step::Accept(None), Some(H)),
        (Step::Arrive, Some(X)),
        (Step::Accept(Some(H)), Some(X)),
        (Step::Arrive, Some(J)),
        (Step::Arrive, Some(H)),
        (Step::Arrive, Some(X)),
        (Step::Accept(Some(H)), Some(J)),
        (Step::Accept(Some(X)), None),
        (Step::Accept(None), Some(X)),
        (Step::Accept(None), None),
        (Step::Enable(IsrNo(1)), None),
        (Step::Accept(Some(H)), None),
        (Step::Accept(None), Some(H)),
        (Step::Accept(None), None),
    ] {
        assert_eq!(rt; take(&mut gates, step), source);
    }
    Ok(())
}
