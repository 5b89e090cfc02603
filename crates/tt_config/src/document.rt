//! What the rows of a document say, elaborated, and the first rule that they break.

ghost use Rattle.std.specs.Prelude.{◌≡◌, ◌≤◌, ◌<◌, ◌^◌, None, length, IfOk};
ghost use Rattle.tt_base.specs.declared.names.NameKind.{NameKind};
ghost use Rattle.tt_base.specs.Names.{count_of};
ghost use Rattle.tt_config.specs.Document.{elaborated_of};
ghost use Rattle.tt_parts.specs.Bodies.{bodies_of};
ghost use Rattle.tt_parts.specs.Located.{parts};
ghost use Rattle.tt_parts.specs.Names.{names_in};
ghost use Rattle.tt_parts.specs.Parts.{declarations_of, said_in};
ghost use Rattle.tt_rules.specs.Document.{document_of};
ghost use Rattle.tt_rules.specs.Table.{first_broken, first_rules, later_rules};

use crate::lists::{count_of, parts};
use std::alloc::Global;
use task_lang::Demands;
use tt_base::{Memory, NameKind, Names, Series};
use tt_parts::{At, BodyPart, Declarations, Said, bodies_of, names_of, said_in};
use tt_rows::NumberedRow;
use tt_rules::{
    Broken, bodies_broken, declarations_broken, inputs_broken, limit_of, names_broken,
    round_broken, structure_broken, tables_broken,
};

/// What the rows of a document say.
#[derive(Drop)]
pub(crate) struct Elaborated {
    pub declared: Declarations,
    pub names: Names,
    pub said: Said,
    pub demands: Demands,
    pub bodies: Series<At<BodyPart>>,
}

/// The first of rules 1 to 8 that is broken. These need no number of a name.
pub(crate) fn first_broken(
    alloc: Global,
    rows: &[NumberedRow],
    declared: &Declarations,
) -> Result<Option<Broken>, Memory>
    requires { declared.now ≡ declarations_of rows.now }
    ensures { IfOk result (λ broken. broken ≡ first_broken 1 first_rules (document_of rows.now)) }
{
    if let Some(broken) = structure_broken(alloc, rows)? {
        return Ok(Some(broken));
    }
    if let Some(broken) = round_broken(declared) {
        return Ok(Some(broken));
    }
    let broken = names_broken(alloc, declared)?;
    Ok(broken)
}

/// What rows say with the numbers of names: the parts, the demands and the bodies.
fn said_with(
    alloc: Global,
    names: &Names,
    rows: &[NumberedRow],
) -> Result<(Said, Demands, Series<At<BodyPart>>), Memory>
    ensures said { IfOk result (λ told. told.0 ≡ said_in names.now rows.now) }
    ensures demands { IfOk result (λ told. told.1 ≡ parts told.0.demands) }
    ensures bodies { IfOk result (λ told. told.2 ≡ bodies_of names.now rows.now) }
{
    let bodies = bodies_of(alloc, names, rows)?;
    let said = said_in(alloc, names, rows)?;
    match parts(alloc, said.demands.as_slice()) {
        Ok(demands) => Ok((said, demands, bodies)),
        Err(Memory) => {
            drop(said);
            drop(bodies);
            Err(Memory)
        }
    }
}

/// What rows say. No kind has more than 1,024 names.
pub(crate) fn elaborate(
    alloc: Global,
    rows: &[NumberedRow],
    declared: Declarations,
) -> Result<Elaborated, Memory>
    requires declared { declared ≡ declarations_of rows.now }
    requires few { (kind : NameKind) → count_of kind (names_in rows.now) ≤ 1024 }
    ensures { IfOk result (λ document. document ≡ elaborated_of rows.now) }
{
    let names = names_of(alloc, declared.names.as_slice())?;
    let (said, demands, bodies) = said_with(alloc, &names, rows)?;
    Ok(Elaborated {
        declared,
        names,
        said,
        demands,
        bodies,
    })
}

/// The first of rules 9 to 28 that is broken, where none is before.
pub(crate) fn later_broken(
    alloc: Global,
    rows: &[NumberedRow],
    document: &Elaborated,
) -> Result<Option<Broken>, Memory>
    requires elaborated { document.now ≡ elaborated_of rows.now }
    requires short { length rows.now < 2 ^ 32 }
    requires first { None ≡ first_broken 1 first_rules (document_of rows.now) }
    ensures { IfOk result (λ broken. broken ≡ first_broken 9 later_rules (document_of rows.now)) }
{
    let bodies = document.bodies.as_slice();
    if let Some(broken) = declarations_broken(alloc, rows, bodies)? {
        return Ok(Some(broken));
    }
    if let Some(broken) = bodies_broken(rows, &document.names, &document.demands, bodies) {
        return Ok(Some(broken));
    }
    let limit = limit_of(&document.declared);
    let modes = count_of(document.declared.names.as_slice(), NameKind::Mode) as u16;
    if let Some(broken) = tables_broken(alloc, limit, modes, document.said.entries.as_slice())? {
        return Ok(Some(broken));
    }
    let broken = inputs_broken(alloc, document.declared.first, &document.said)?;
    Ok(broken)
}
