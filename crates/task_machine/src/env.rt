//! What the ticks of a body read and change: variables, and the values that the script gives for
//! demands.

ghost use Rattle.std.specs.Prelude.{◌≡◌, ◌∷◌, ◌++◌, [], length, take, replicate, slice_set, IfOk};
ghost use Rattle.task_machine.specs.Stored.{Store};

use std::alloc::Global;
use std::marker::Model;
use task_lang::{Cursors, Demands, Values, Vars};
use tt_base::{Memory, Series, VarNo, copy_lists};

/// The variables, the demands, the values that the script gives for them, and how many of each
/// were used.
#[derive(Drop)]
pub struct Env {
    pub(crate) vars: Vars,
    pub(crate) cursors: Cursors,
    pub(crate) demands: Demands,
    pub(crate) values: Values,
}

impl Model for Env {
    ghost use Rattle.task_machine.specs.Stored.{Store};

    ghost Value = { Store };

    ghost view = { λ e. record {
      vars = e.vars;
      cursors = e.cursors;
      demands = e.demands;
      values = e.values;
    } };
}

impl Env {
    /// Copies of these variables, demands and values. No value of a demand was used.
    pub fn new(
        alloc: Global,
        vars: &Vars,
        demands: &Demands,
        values: &Values,
    ) -> Result<Env, Memory>
        ensures { IfOk result (λ env. env ≡ record {
          vars = vars.now;
          cursors = replicate (length demands.now) 0;
          demands = demands.now;
          values = values.now;
        }) }
    {
        let copy = vars.copy(alloc)?;
        let cursors = Cursors::new(alloc, demands.len())?;
        let demands = Series::copy_of(alloc, demands.as_slice())?;
        let values = copy_lists(alloc, values.as_slice())?;
        Ok(Env {
            vars: copy,
            cursors,
            demands,
            values,
        })
    }

    /// The variables.
    pub fn vars(&self) -> &Vars
        ensures { result.now ≡ self.now.vars }
    {
        &self.vars
    }

    /// Gives a variable a value, if it exists. Nothing else changes.
    pub fn set_var(&mut self, var: VarNo, value: i32)
        ensures { self.new ≡ record self.old { vars = slice_set self.old.vars var.0 value } }
    {
        self.vars.assign(var, value);
    }
}
