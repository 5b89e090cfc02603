//! The configuration that parts give.

ghost use Rattle.std.specs.Prelude.{◌≡◌, IfOk};
ghost use Rattle.tt_config.specs.Owners.{AreFit};
ghost use Rattle.tt_config.specs.Parts.{config_with};
ghost use Rattle.tt_config.specs.declared.document.Elaborated.{Elaborated};
ghost use Rattle.tt_parts.specs.Located.{parts};

use crate::document::Elaborated;
use crate::lists::{count_of, parts};
use crate::owners::{Owners, first_body, owners_of};
use crate::tables::modes_of;
use std::alloc::Global;
use task_lang::{Demands, Vars};
use tt_base::{Memory, NameKind, Names, Series};
use tt_parts::{At, BodyPart, Declarations, Said};
use tt_rules::{adjust_of, round_of};
use tt_world::ConfigParts;

/// The configuration that parts give, whose bodies fit.
pub(crate) fn config_parts(alloc: Global, document: Elaborated) -> Result<ConfigParts, Memory>
    requires { AreFit document.demands document.bodies }
    ensures { IfOk result (λ config. config ≡ config_with document) }
{
    let Elaborated {
        declared,
        names,
        said,
        demands,
        bodies,
    } = document;
    let config = config_of(alloc, &declared, names, &said, demands, bodies);
    drop(declared);
    drop(said);
    config
}

/// The configuration that parts give. It borrows what it only reads, so that no way out drops that.
fn config_of(
    alloc: Global,
    declared: &Declarations,
    names: Names,
    said: &Said,
    demands: Demands,
    bodies: Series<At<BodyPart>>,
) -> Result<ConfigParts, Memory>
    requires { AreFit demands bodies }
    ensures { IfOk result (λ config. (d : Elaborated) → d.declared ≡ declared.now → d.names ≡ names
        → d.said ≡ said.now → d.demands ≡ demands → d.bodies ≡ bodies → config ≡ config_with d) }
{
    let count = count_of(declared.names.as_slice(), NameKind::Mode);
    let modes = modes_of(alloc, count, said.entries.as_slice())?;
    let vars = vars_of(alloc, said.vars.as_slice())?;
    let Owners {
        tasks,
        isrs,
        oseks,
        oisrs,
        error_hooks,
        shutdown_hooks,
    } = owners_of(alloc, &demands, bodies)?;
    Ok(ConfigParts {
        names,
        round: round_of(declared),
        adjust: adjust_of(declared),
        vars,
        demands,
        tasks,
        isrs,
        oseks,
        oisrs,
        error_hook: first_body(alloc, error_hooks),
        shutdown_hook: first_body(alloc, shutdown_hooks),
        modes,
    })
}

/// The initial values of the variables.
fn vars_of(alloc: Global, located: &[At<i32>]) -> Result<Vars, Memory>
    ensures { IfOk result (λ vars. vars ≡ parts located.now) }
{
    let mut vars = Vars::new(alloc);
    for at in located {
        vars.push(at.part)?;
    }
    Ok(vars)
}
