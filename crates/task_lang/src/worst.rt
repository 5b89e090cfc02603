//! How many ticks a body takes at most.

ghost use Rattle.std.specs.Prelude.{◌≡◌, ◌<◌, ◌^◌, IsTrue, slice_get};
ghost use Rattle.task_lang.specs.Limits.{IsNestedInLimit, IsCountInLimit, AreNumbersInRange, AreMostsInRange, each_of, is_number_in_range};
ghost use Rattle.task_lang.specs.Worst.{most_of, worst_of, worst_in};

use crate::demand::{Demand, Demands};
use crate::syntax::{Body, Stmt};
use tt_base::DemandNo;

/// The worst case of a body: how many ticks it takes at most. A demand that `demands` does not
/// have counts as 0. The time is linear in the number of statements.
pub fn worst(body: &Body, demands: &Demands) -> u128
    requires nested { IsNestedInLimit body.now }
    requires counted { IsCountInLimit body.now }
    requires numbers { AreNumbersInRange body.now }
    requires mosts { AreMostsInRange demands.now }
    ensures { result ≡ worst_in demands.now body.now }
{
    worst_in(body.as_slice(), demands.as_slice())
}

#[cycle(worst_case)]
fn worst_in(stmts: &[Stmt], demands: &[Demand]) -> u128
    requires numbers { AreNumbersInRange stmts.now }
    requires fits { worst_in demands.now stmts.now < 2 ^ 128 }
    ensures { result ≡ worst_in demands.now stmts.now }
{
    let mut sum = 0;
    for stmt in stmts {
        sum += worst_of(stmt, demands);
    }
    sum
}

#[cycle(worst_case)]
fn worst_of(stmt: &Stmt, demands: &[Demand]) -> u128
    requires numbers { IsTrue (each_of is_number_in_range stmt.now) }
    requires fits { worst_of demands.now stmt.now < 2 ^ 128 }
    ensures { result ≡ worst_of demands.now stmt.now }
{
    match stmt {
        Stmt::Work(ticks) => u128::from(*ticks),
        Stmt::Take(demand) => 1 + u128::from(most_of(demands, *demand)),
        Stmt::If(_, first, second) => {
            1 + worst_in(first.as_slice(), demands).max(worst_in(second.as_slice(), demands))
        }
        Stmt::Repeat(turns, body) => u128::from(*turns) * (1 + worst_in(body.as_slice(), demands)),
        Stmt::Set(_, _) | Stmt::Out(_) | Stmt::Service(_) => 1,
    }
}

fn most_of(demands: &[Demand], demand: DemandNo) -> u64
    ensures { result ≡ most_of (slice_get demands.now demand.0) }
{
    demands
        .get(demand.0 as usize)
        .map_or(0, |demand| demand.most)
}
