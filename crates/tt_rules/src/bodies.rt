//! Rules 14 to 17: names that are used, and bodies.

ghost use Rattle.std.specs.Prelude.{◌≡◌, ◌≤◌, flat_map, option_map, IfOk};
ghost use Rattle.std.specs.List.{list_all};
ghost use Rattle.tt_base.specs.Names.{find_name, is_same_kind, kind_of};
ghost use Rattle.tt_parts.specs.Located.{parts};
ghost use Rattle.tt_rules.specs.BodyRules.{AreTellable, IsTellable, are_names_declared, has_kind, has_statement, is_declared, is_hook, is_light, is_row_allowed, lines_14, lines_15, lines_16, lines_17, owner_after, used_by_term, used_in, uses, uses_source};
ghost use Rattle.tt_rules.specs.Document.{Document, names_of};
ghost use Rattle.tt_rules.specs.Lines.{least_line};
ghost use Rattle.tt_rules.specs.Table.{body_rules, first_broken};

use crate::broken::{Broken, first_some};
use crate::least::with_line_unless;
use crate::shapes::{failing, failing_row};
use task_lang::worst::worst;
use task_lang::{Demands, OwnerKind};
use tt_base::{Declared, Name, NameKind, Names};
use tt_parts::{At, BodyPart, Owner, Standing, standing_of};
use tt_rows::{NumberedRow, Row, Term};

fn is_same_kind(kind: NameKind, other: NameKind) -> bool
    ensures { result ≡ is_same_kind kind other }
{
    kind.index() == other.index()
}

/// Whether a name is declared as a kind.
fn is_declared(names: &Names, name: Name, kind: NameKind) -> bool
    ensures { result ≡ is_declared names.now (uses kind name) }
{
    match names.find(name) {
        Some(which) => is_same_kind(which.kind(), kind),
        None => false,
    }
}

/// Whether a name is declared as a source of interrupts.
fn is_source(names: &Names, name: Name) -> bool
    ensures { result ≡ is_declared names.now (uses_source name) }
{
    matches!(names.find(name), Some(Declared::Isr(_) | Declared::Oisr(_)))
}

/// Whether the names of an expression are declared as variables.
fn are_variables(names: &Names, terms: &[Term]) -> bool
    ensures { result ≡ list_all (is_declared names.now) (flat_map used_by_term terms.now) }
{
    for term in terms {
        if let Term::Name(name) = term {
            if !is_declared(names, *name, NameKind::Var) {
                return false;
            }
        }
    }
    true
}

/// Whether each name that a row uses is declared, as a kind that it may have there.
fn are_names_declared(names: &Names, row: &Row) -> bool
    ensures { result ≡ are_names_declared names.now row.now }
{
    match row {
        Row::AtStringent(_, mode, task, _) | Row::AtNonstringent(_, mode, task, _) => {
            is_declared(names, *mode, NameKind::Mode) && is_declared(names, *task, NameKind::Task)
        }
        Row::AtEnable(_, mode, isr) => {
            is_declared(names, *mode, NameKind::Mode) && is_declared(names, *isr, NameKind::Isr)
        }
        Row::Start(mode) | Row::Switch(mode) => is_declared(names, *mode, NameKind::Mode),
        Row::Value(demand, _) | Row::Take(demand) => is_declared(names, *demand, NameKind::Demand),
        Row::Arrive(source, _) => is_source(names, *source),
        Row::Set(var, terms) => {
            is_declared(names, *var, NameKind::Var) && are_variables(names, terms.as_slice())
        }
        Row::If(terms) | Row::Out(terms) => are_variables(names, terms.as_slice()),
        Row::Activate(task) | Row::Chain(task) => is_declared(names, *task, NameKind::Osek),
        _ => true,
    }
}

/// Rule 14. Each name that is used is declared, as a kind that it may have there.
fn rule_14(names: &Names, rows: &[NumberedRow]) -> Option<u32>
    ensures { result ≡ least_line (lines_14 names.now rows.now) }
{
    failing_row(rows, |row| are_names_declared(names, row))
}

/// Whether an owner of this kind may have a row in its body.
fn is_row_allowed(kind: OwnerKind, row: &Row) -> bool
    ensures { result ≡ is_row_allowed kind row.now }
{
    match row {
        Row::Work(_) | Row::Take(_) | Row::If(_) | Row::Else | Row::Repeat(_) => {
            kind != OwnerKind::Hook
        }
        Row::Switch(_) | Row::Sync | Row::Shutdown => {
            matches!(kind, OwnerKind::Task | OwnerKind::Isr)
        }
        Row::Activate(_) => matches!(kind, OwnerKind::Osek | OwnerKind::Oisr),
        Row::Chain(_) | Row::Terminate => kind == OwnerKind::Osek,
        _ => true,
    }
}

/// The kind of the owner whose body comes after a row.
fn owner_after(kind: OwnerKind, standing: Standing) -> OwnerKind
    ensures { result ≡ owner_after kind standing }
{
    match standing {
        Standing::Opener(opened) => opened,
        _ => kind,
    }
}

/// Rule 15. Each row of a body is allowed for its owner.
fn rule_15(rows: &[NumberedRow]) -> Option<u32>
    ensures { result ≡ least_line (lines_15 rows.now) }
{
    let mut least = None;
    let mut kind = OwnerKind::Task;
    for row in rows {
        least = with_line_unless(is_row_allowed(kind, &row.row), row.line, least);
        kind = owner_after(kind, standing_of(&row.row));
    }
    least
}

/// Whether a body takes no ticks.
fn is_hook(owner: Owner) -> bool
    ensures { result ≡ is_hook owner }
{
    matches!(owner, Owner::ErrorHook | Owner::ShutdownHook)
}

fn has_statement(body: &BodyPart) -> bool
    ensures { result ≡ has_statement body.now }
{
    is_hook(body.owner) || body.body.len() >= 1
}

/// Rule 16. Each body of a task, an isr, an osek or an oisr has a statement.
fn rule_16(bodies: &[At<BodyPart>]) -> Option<u32>
    ensures { result ≡ least_line (lines_16 bodies.now) }
{
    failing(bodies, |body| has_statement(body))
}

/// How many ticks a body takes at most.
const MOST_TICKS: u128 = 1_000_000_000_000;

fn is_light(demands: &Demands, body: &BodyPart) -> bool
    requires { IsTellable demands.now body.now.body }
    ensures { result ≡ is_light demands.now body.now }
{
    is_hook(body.owner) || worst(&body.body, demands) <= MOST_TICKS
}

/// Rule 17. The worst case of each body of a task, an isr, an osek or an oisr is at most 10^12
/// ticks.
fn rule_17(demands: &Demands, bodies: &[At<BodyPart>]) -> Option<u32>
    requires { AreTellable demands.now bodies.now }
    ensures { result ≡ least_line (lines_17 demands.now bodies.now) }
{
    let mut least = None;
    for at in bodies {
        least = with_line_unless(is_light(demands, &at.part), at.line, least);
    }
    least
}

/// The first of rules 14 to 17 that is broken.
pub fn bodies_broken(
    rows: &[NumberedRow],
    names: &Names,
    demands: &Demands,
    bodies: &[At<BodyPart>],
) -> Option<Broken>
    requires { AreTellable demands.now bodies.now }
    ensures { (d : Document) → d.rows ≡ rows.now → names_of d ≡ names.now
        → parts d.said.demands ≡ demands.now → d.bodies ≡ bodies.now
        → result ≡ first_broken 14 body_rules d }
{
    first_some(
        14,
        &[
            rule_14(names, rows),
            rule_15(rows),
            rule_16(bodies),
            rule_17(demands, bodies),
        ],
    )
}
