//! Documents that meet the rules.

ghost use Rattle.std.specs.Prelude.{◌≡◌, ◌<◌, ◌^◌, length, None, Some, OnOk, IfOk, IfErr};
ghost use Rattle.tt_config.specs.Accept.{IfRule};
ghost use Rattle.tt_config.specs.Broken.{broken_rule};
ghost use Rattle.tt_config.specs.Document.{elaborated_of};
ghost use Rattle.tt_config.specs.Parts.{config_of, config_with, script_of, script_with};
ghost use Rattle.tt_config.specs.Sound.{IsSound};
ghost use Rattle.tt_parts.specs.Located.{parts};
ghost use Rattle.tt_parts.specs.Parts.{declarations_of};
ghost use Rattle.tt_rows.specs.Sound.{AreSound};
ghost use Rattle.tt_rules.specs.Document.{document_of};
ghost use Rattle.tt_rules.specs.Table.{first_broken, first_rules};
ghost use Rattle.tt_world.specs.ScriptRules.{IsScript};

use crate::config::config_parts;
use crate::document::{Elaborated, elaborate, first_broken, later_broken};
use crate::few_rows::rows_are_few;
use crate::script::script_parts;
use std::alloc::Global;
use thiserror::Error;
use tt_base::Memory;
use tt_parts::{Declarations, declarations_of};
use tt_rows::{NumberedRow, Rows};
use tt_rules::Broken;
use tt_world::{Config, Script, ScriptParts};

/// Why rows were not accepted.
#[derive(Clone, Copy, Debug, PartialEq, Eq, Error)]
pub enum AcceptFault {
    /// Out of memory.
    #[error("out of memory")]
    Memory,
    /// The least rule that is broken, and the least line that breaks it.
    #[error("rule {number} is broken in line {line}")]
    Rule { number: u8, line: u32 },
}

/// What accepted rows give.
#[derive(Drop)]
pub struct Accepted {
    pub config: Config,
    pub script: Script,
}

impl From<Memory> for AcceptFault {
    ghost use Rattle.tt_config.specs.declared.acceptance.AcceptFault.TheVariants.{Memory};

    ghost from_gives = { λ _ fault. fault ≡ Memory };

    fn from(_: Memory) -> AcceptFault {
        AcceptFault::Memory
    }
}

/// The configuration and the script of what is elaborated from rows that break no rule.
fn build_accepted(alloc: Global, document: Elaborated) -> Result<Accepted, Memory>
    requires { IsSound document }
    ensures config { IfOk result (λ accepted. accepted.config ≡ config_with document) }
    ensures script { IfOk result (λ accepted. accepted.script
        ≡ script_with (parts document.declared.names) document.said) }
    ensures rules { IfOk result (λ accepted. IsScript accepted.config accepted.script) }
{
    match script_parts(alloc, document.declared.names.as_slice(), &document.said) {
        Ok(script) => join_config(alloc, document, script),
        Err(Memory) => {
            drop(document);
            Err(Memory)
        }
    }
}

/// The configuration of such a document, with its script.
fn join_config(alloc: Global, document: Elaborated, script: ScriptParts) -> Result<Accepted, Memory>
    requires sound { IsSound document }
    requires script { IsScript (config_with document) script }
    ensures config { IfOk result (λ accepted. accepted.config ≡ config_with document) }
    ensures script { IfOk result (λ accepted. accepted.script ≡ script) }
    ensures rules { IfOk result (λ accepted. IsScript accepted.config accepted.script) }
{
    match config_parts(alloc, document) {
        Ok(parts) => {
            let config = Config::new(parts);
            let script = Script::new(script, &config);
            Ok(Accepted { config, script })
        }
        Err(Memory) => {
            drop(script);
            Err(Memory)
        }
    }
}

/// Refuses rows that break one of rules 1 to 8.
fn keep_first(
    alloc: Global,
    rows: &[NumberedRow],
    declared: &Declarations,
) -> Result<(), AcceptFault>
    requires { declared.now ≡ declarations_of rows.now }
    ensures kept { OnOk result (None ≡ first_broken 1 first_rules (document_of rows.now)) }
    ensures rule { IfErr result (λ fault. IfRule fault (λ rule. broken_rule rows.now ≡ Some rule)) }
{
    match first_broken(alloc, rows, declared)? {
        None => Ok(()),
        Some(Broken { number, line }) => Err(AcceptFault::Rule { number, line }),
    }
}

/// Refuses rows that break one of rules 9 to 28, and none of those before.
fn keep_later(alloc: Global, rows: &[NumberedRow], document: &Elaborated) -> Result<(), AcceptFault>
    requires rows { AreSound rows.now }
    requires elaborated { document.now ≡ elaborated_of rows.now }
    requires few { length rows.now < 2 ^ 32 }
    requires first { None ≡ first_broken 1 first_rules (document_of rows.now) }
    ensures kept { OnOk result (broken_rule rows.now ≡ None) }
    ensures sound { OnOk result (IsSound document.now) }
    ensures rule { IfErr result (λ fault. IfRule fault (λ rule. broken_rule rows.now ≡ Some rule)) }
{
    match later_broken(alloc, rows, document)? {
        None => Ok(()),
        Some(Broken { number, line }) => Err(AcceptFault::Rule { number, line }),
    }
}

/// What rows say that break none of rules 1 to 8.
#[tactic(auto, using(crate::proofs::Asked::few_names))]
fn elaborate_rows(alloc: Global, rows: &[NumberedRow]) -> Result<Elaborated, AcceptFault>
    requires { AreSound rows.now }
    ensures elaborated { IfOk result (λ document. document ≡ elaborated_of rows.now) }
    ensures few { OnOk result (length rows.now < 2 ^ 32) }
    ensures first { OnOk result (None ≡ first_broken 1 first_rules (document_of rows.now)) }
    ensures rule { IfErr result (λ fault. IfRule fault (λ rule. broken_rule rows.now ≡ Some rule)) }
{
    let declared = declarations_of(alloc, rows)?;
    keep_first(alloc, rows, &declared)?;
    rows_are_few(rows);
    Ok(elaborate(alloc, rows, declared)?)
}

/// Accepts borrowed rows.
#[tactic(auto, unfolding(crate::specs::Parts::config_of, crate::specs::Parts::script_of))]
fn accept_rows(alloc: Global, rows: &[NumberedRow]) -> Result<Accepted, AcceptFault>
    requires { AreSound rows.now }
    ensures kept { OnOk result (broken_rule rows.now ≡ None) }
    ensures config { IfOk result (λ accepted. accepted.config ≡ config_of rows.now) }
    ensures script { IfOk result (λ accepted. accepted.script ≡ script_of rows.now) }
    ensures script_rules { IfOk result (λ accepted. IsScript accepted.config accepted.script) }
    ensures rule { IfErr result (λ fault. IfRule fault (λ rule. broken_rule rows.now ≡ Some rule)) }
{
    let document = elaborate_rows(alloc, rows)?;
    match keep_later(alloc, rows, &document) {
        Ok(()) => Ok(build_accepted(alloc, document)?),
        Err(fault) => {
            drop(document);
            Err(fault)
        }
    }
}

/// Accepts the rows of a document: gives the configuration of the node and the script of the run,
/// where the rows break none of the 28 rules. Otherwise the fault names the least rule that is
/// broken, and the least of its lines. A refusal gives up the rows. The rules are the bench's own.
pub fn accept(alloc: Global, rows: Rows) -> Result<Accepted, AcceptFault>
    requires { AreSound rows }
    ensures kept { OnOk result (broken_rule rows ≡ None) }
    ensures config { IfOk result (λ accepted. accepted.config ≡ config_of rows) }
    ensures script { IfOk result (λ accepted. accepted.script ≡ script_of rows) }
    ensures script_rules { IfOk result (λ accepted. IsScript accepted.config accepted.script) }
    ensures rule { IfErr result (λ fault. IfRule fault (λ rule. broken_rule rows ≡ Some rule)) }
{
    accept_rows(alloc, rows.as_slice())
}
