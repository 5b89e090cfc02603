//! The variables.

ghost use Rattle.std.specs.Prelude.{◌≡◌, ◌<◌, [], ◌∷◌, ◌++◌, length, Some, IfOk, OnOk, OnErr, slice_get, slice_set};

use std::alloc::Global;
use std::marker::Model;
use tt_base::{Memory, VarNo};

/// The values of the variables, by number. Contracts see them as a list.
#[derive(Debug, Drop)]
pub struct Vars {
    values: Vec<i32>,
}

impl Model for Vars {
    ghost use Rattle.std.specs.Prelude.{List, ℤ};

    ghost Value = { List ℤ };

    ghost view = { λ v. v.values.items };
}

impl Vars {
    /// No variables. It takes no memory.
    pub fn new(alloc: Global) -> Vars
        ensures { result ≡ [] }
    {
        Vars {
            values: Vec::new(alloc),
        }
    }

    /// Appends a variable with its value. On `Memory` nothing has changed.
    pub fn push(&mut self, value: i32) -> Result<(), Memory>
        ensures ok { OnOk result (self.new ≡ self.old ++ value ∷ []) }
        ensures err { OnErr result (self.new ≡ self.old) }
    {
        self.values.push(value)?;
        Ok(())
    }

    /// A copy of the variables.
    pub fn copy(&self, alloc: Global) -> Result<Vars, Memory>
        ensures { IfOk result (λ vars. vars ≡ self.now) }
    {
        let values = Vec::from_slice(alloc, self.as_slice())?;
        Ok(Vars { values })
    }

    /// The values in order.
    pub fn as_slice(&self) -> &[i32]
        ensures { result.now ≡ self.now }
    {
        self.values.as_slice()
    }

    /// The value of a variable.
    pub fn get(&self, var: VarNo) -> i32
        requires { var.0 < length self.now }
        ensures { slice_get self.now var.0 ≡ Some result }
    {
        self.values[var.0 as usize]
    }

    /// Gives a variable a value. All others keep theirs.
    pub fn set(&mut self, var: VarNo, value: i32)
        requires { var.0 < length self.old }
        ensures { self.new ≡ slice_set self.old var.0 value }
    {
        self.values[var.0 as usize] = value;
    }

    /// Gives a variable a value, where it exists.
    pub fn assign(&mut self, var: VarNo, value: i32)
        ensures { self.new ≡ slice_set self.old var.0 value }
    {
        if let Some(place) = self.values.get_mut(var.0 as usize) {
            *place = value;
        }
    }
}
