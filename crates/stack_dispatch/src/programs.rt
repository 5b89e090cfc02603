//! The programs of an application: the codes of all bodies.

ghost use Rattle.std.specs.Prelude.{◌≡◌, ◌≤◌, ◌+◌, ◌++◌, All, length, map, IfOk};
ghost use Rattle.task_lang.specs.Limits.{AreNumbersInRange, IsNestedInLimit};
ghost use Rattle.tt_world.specs.ConfigRules.{IsConfig};
ghost use Rattle.stack_dispatch.specs.State.{bodies_of};

use std::alloc::Global;
use task_lang::Body;
use task_machine::{Codes, compile};
use tt_base::Memory;
use tt_world::{ConfigParts, IsrDef, OisrDef, OsekDef, TaskDef};

/// What has a body.
pub(crate) trait Bodied {
    ghost use Rattle.std.specs.Prelude.{List};
    ghost use Rattle.task_lang.specs.declared.syntax.Stmt.{Stmt};

    ghost body_of: { Self → List Stmt };

    fn body(&self) -> &Body
        ensures { result.now ≡ body_of self.now };
}

impl Bodied for TaskDef {
    ghost body_of = { λ task. task.body };

    fn body(&self) -> &Body {
        &self.body
    }
}

impl Bodied for IsrDef {
    ghost body_of = { λ isr. isr.body };

    fn body(&self) -> &Body {
        &self.body
    }
}

impl Bodied for OsekDef {
    ghost body_of = { λ task. task.body };

    fn body(&self) -> &Body {
        &self.body
    }
}

impl Bodied for OisrDef {
    ghost body_of = { λ oisr. oisr.body };

    fn body(&self) -> &Body {
        &self.body
    }
}

/// Appends the code of each body.
fn add<D: Bodied>(alloc: Global, codes: Codes, defs: &[D]) -> Result<Codes, Memory>
    requires room { length codes + length defs.now ≤ 256 }
    requires nested { All (λ d. IsNestedInLimit (D.body_of d)) defs.now }
    requires numbers { All (λ d. AreNumbersInRange (D.body_of d)) defs.now }
    ensures { IfOk result (λ more. more ≡ codes ++ map D.body_of defs.now) }
{
    let mut codes = codes;
    for def in defs {
        let code = compile(alloc, def.body())?;
        let _number = codes.push(code)?;
    }
    Ok(codes)
}

/// The codes of all bodies, by program number.
pub(crate) fn codes_of(alloc: Global, config: &ConfigParts) -> Result<Codes, Memory>
    requires { IsConfig config.now }
    ensures { IfOk result (λ codes. codes ≡ bodies_of config.now) }
{
    let codes = Codes::new(alloc);
    let codes = add(alloc, codes, config.tasks.as_slice())?;
    let codes = add(alloc, codes, config.isrs.as_slice())?;
    let codes = add(alloc, codes, config.oseks.as_slice())?;
    add(alloc, codes, config.oisrs.as_slice())
}
