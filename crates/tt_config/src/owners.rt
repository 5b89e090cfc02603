//! What has a body: tasks, interrupt service routines and hooks.

ghost use Rattle.std.specs.Prelude.{◌≡◌, ◌≤◌, ◌^◌, [], IfOk, OnOk};
ghost use Rattle.task_lang.specs.Worst.{worst_in};
ghost use Rattle.tt_config.specs.Owners.{AreFit, IsFit, first_body, no_owners, owners_of, with_owner};
ghost use Rattle.tt_parts.specs.Located.{parts};
ghost use Rattle.tt_rules.specs.BodyRules.{IsTellable};

use sqlite_items::Items;
use std::alloc::Global;
use task_lang::worst::worst;
use task_lang::{Body, Demands};
use tt_base::{Memory, Series};
use tt_parts::{At, BodyPart, Owner};
use tt_world::{IsrDef, OisrDef, OsekDef, TaskDef};

/// What has a body.
#[derive(Drop)]
pub(crate) struct Owners {
    pub tasks: Series<TaskDef>,
    pub isrs: Series<IsrDef>,
    pub oseks: Series<OsekDef>,
    pub oisrs: Series<OisrDef>,
    /// The bodies of ttErrorHook.
    pub error_hooks: Series<Body>,
    /// The bodies of ttShutdownHook.
    pub shutdown_hooks: Series<Body>,
}

/// No owners. They take no memory.
fn no_owners(alloc: Global) -> Owners
    ensures { result ≡ no_owners }
{
    Owners {
        tasks: Series::new(alloc),
        isrs: Series::new(alloc),
        oseks: Series::new(alloc),
        oisrs: Series::new(alloc),
        error_hooks: Series::new(alloc),
        shutdown_hooks: Series::new(alloc),
    }
}

/// The owners of bodies, each with its body and the body's worst case.
pub(crate) fn owners_of(
    alloc: Global,
    demands: &Demands,
    bodies: Series<At<BodyPart>>,
) -> Result<Owners, Memory>
    requires { AreFit demands.now bodies }
    ensures { IfOk result (λ owners. owners ≡ owners_of demands.now (parts bodies)) }
{
    let mut owners = no_owners(alloc);
    for at in bodies.into_vec() {
        put_owner(at.part, demands, &mut owners)?;
    }
    Ok(owners)
}

/// Appends an owner with its body to those above.
fn put_owner(part: BodyPart, demands: &Demands, owners: &mut Owners) -> Result<(), Memory>
    requires { IsFit demands.now part }
    ensures { OnOk result (owners.new ≡ with_owner demands.now part owners.old) }
{
    let BodyPart { owner, body } = part;
    match owner {
        Owner::Task(stack) => owners.tasks.push(TaskDef {
            stack: stack as u32,
            budget: budget_of(&body, demands),
            body,
        }),
        Owner::Isr(level, stack, distance) => owners.isrs.push(IsrDef {
            level: level as u8,
            stack: stack as u32,
            distance,
            budget: budget_of(&body, demands),
            body,
        }),
        Owner::Osek(priority, auto) => owners.oseks.push(OsekDef {
            priority: priority as u8,
            auto,
            budget: budget_of(&body, demands),
            body,
        }),
        Owner::Oisr(priority) => owners.oisrs.push(OisrDef {
            priority: priority as u8,
            budget: budget_of(&body, demands),
            body,
        }),
        Owner::ErrorHook => owners.error_hooks.push(body),
        Owner::ShutdownHook => owners.shutdown_hooks.push(body),
    }
}

/// The worst case of a body, in ticks.
fn budget_of(body: &Body, demands: &Demands) -> u64
    requires tellable { IsTellable demands.now body.now }
    requires bounded { worst_in demands.now body.now ≤ 10 ^ 12 }
    ensures { result ≡ worst_in demands.now body.now }
{
    worst(body, demands) as u64
}

/// The first of some bodies; the empty body where there is none.
pub(crate) fn first_body(alloc: Global, bodies: Series<Body>) -> Body
    ensures { result ≡ first_body bodies }
{
    let mut left = bodies.into_vec();
    if left.is_empty() {
        Items::new(alloc)
    } else {
        left.swap_remove(0)
    }
}
