//! The declared words of stack.

ghost use Rattle.std.specs.Prelude.{◌≡◌, ◌≤◌, length, map, IfOk, slice_index_or};
ghost use Rattle.tt_world.specs.declared.config.IsrDef.{IsrDef};
ghost use Rattle.tt_stack.specs.Words.{all_isr_words, all_row_words, entry_words, mode_words, routine_words, row_words};

use arrayvec::ArrayVec;
use std::alloc::Global;
use std::marker::Model;
use tt_base::{IsrNo, Memory, ModeNo, Series};
use tt_world::{Activation, ConfigParts, IsrDef, ModeDef};

/// The declared words of stack of the routines and of the rows of each mode, and the mode of the
/// present round.
#[derive(Drop)]
pub struct DeclaredWords {
    isrs: ArrayVec<u32, 16>,
    rows: Series<Series<u32>>,
    mode: ModeNo,
}

impl Model for DeclaredWords {
    ghost use Rattle.tt_stack.specs.Words.{Words};

    ghost Value = { Words };

    ghost view = { λ w. record { isrs = w.isrs.items; rows = w.rows; mode = w.mode } };
}

/// The words of some routines, by number.
fn words_of_isrs(isrs: &[IsrDef]) -> ArrayVec<u32, 16>
    requires { length isrs.now ≤ 16 }
    ensures { result.items ≡ map (λ (isr : IsrDef). isr.stack) isrs.now }
{
    let mut words = ArrayVec::new();
    for isr in isrs {
        words.push(isr.stack);
    }
    words
}

/// The words of the task of a row. A task that does not exist has none.
fn words_of_row(config: &ConfigParts, row: &Activation) -> u32
    ensures { result ≡ row_words config.now row.now }
{
    match config.tasks.as_slice().get(usize::from(row.task.0)) {
        Some(task) => task.stack,
        None => 0,
    }
}

/// The words of the rows of a mode.
fn words_of_mode(alloc: Global, config: &ConfigParts, mode: &ModeDef) -> Result<Series<u32>, Memory>
    ensures { IfOk result (λ words. words ≡ mode_words config.now mode.now) }
{
    let mut words = Series::new(alloc);
    for row in mode.activations.as_slice() {
        words.push(words_of_row(config, row))?;
    }
    Ok(words)
}

/// The words of the rows of each mode.
fn words_of_modes(alloc: Global, config: &ConfigParts) -> Result<Series<Series<u32>>, Memory>
    ensures { IfOk result (λ words. words ≡ all_row_words config.now) }
{
    let mut words = Series::new(alloc);
    for mode in config.modes.as_slice() {
        words.push(words_of_mode(alloc, config, mode)?)?;
    }
    Ok(words)
}

/// The number at a place; 0 where there is no such place.
fn number_at(numbers: &[u32], place: usize) -> u32
    ensures { result ≡ slice_index_or numbers.now place 0 }
{
    numbers.get(place).copied().unwrap_or(0)
}

impl DeclaredWords {
    /// The words that a configuration declares, where the first round has this mode. Its only error
    /// is `Memory`.
    pub fn new(alloc: Global, config: &ConfigParts, mode: ModeNo) -> Result<DeclaredWords, Memory>
        requires { length config.now.isrs ≤ 16 }
        ensures { IfOk result (λ words. words ≡ record {
          isrs = all_isr_words config.now;
          rows = all_row_words config.now;
          mode = mode;
        }) }
    {
        let rows = words_of_modes(alloc, config)?;
        Ok(DeclaredWords {
            isrs: words_of_isrs(config.isrs.as_slice()),
            rows,
            mode,
        })
    }

    /// The words of a row of the present mode; 0 where there is none.
    pub(crate) fn of_entry(&self, entry: usize) -> u32
        ensures { result ≡ entry_words self.now entry }
    {
        match self.rows.as_slice().get(usize::from(self.mode.0)) {
            Some(rows) => number_at(rows.as_slice(), entry),
            None => 0,
        }
    }

    /// The words of a routine; 0 where there is none.
    pub(crate) fn of_isr(&self, isr: IsrNo) -> u32
        ensures { result ≡ routine_words self.now isr.0 }
    {
        number_at(self.isrs.as_slice(), usize::from(isr.0))
    }

    /// A round of this mode begins.
    pub(crate) fn begin_round(&mut self, mode: ModeNo)
        ensures { self.new ≡ record self.old { mode = mode } }
    {
        self.mode = mode;
    }
}
