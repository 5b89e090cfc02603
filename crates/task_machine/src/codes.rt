//! Codes of bodies.

ghost use Rattle.std.specs.Prelude.{◌≡◌, ◌<◌, ◌≤◌, ◌+◌, [], ◌∷◌, ◌++◌, length, IfOk, OnOk, OnErr};
ghost use Rattle.task_machine.specs.Layout.{AreInRange, body_code};
ghost use Rattle.task_machine.specs.Standing.{code_of};

use crate::instr::Instr;
use std::alloc::Global;
use std::marker::Model;
use tt_base::Memory;

/// The instructions of a body. Contracts see it as the body.
#[derive(Drop)]
pub struct Code {
    pub(crate) instrs: Vec<Instr>,
}

impl Model for Code {
    ghost use Rattle.std.specs.Prelude.{List};
    ghost use Rattle.std.specs.Coded.{coded_list};
    ghost use Rattle.task_lang.specs.contracts.syntax.Stmt as stmt;
    ghost use Rattle.task_lang.specs.declared.syntax.Stmt.{Stmt};
    ghost use Rattle.task_machine.specs.Compiled.{IsCompiled};
    ghost use Rattle.task_machine.specs.Reading.{body_in};

    ghost Value = { List Stmt };

    ghost coded = { coded_list stmt.the_row.coded };

    ghost view = { λ c. body_in c.instrs.items };

    ghost invariant = { λ c. IsCompiled c.instrs.items };
}

/// The codes of an application, by number. Contracts see them as the list of the bodies.
#[derive(Drop)]
pub struct Codes {
    codes: Vec<Code>,
}

impl Model for Codes {
    ghost use Rattle.std.specs.Prelude.{List, ◌≤◌, length};
    ghost use Rattle.std.specs.Coded.{coded_list};
    ghost use Rattle.task_lang.specs.contracts.syntax.Stmt as stmt;
    ghost use Rattle.task_lang.specs.declared.syntax.Stmt.{Stmt};

    ghost Value = { List (List Stmt) };

    ghost coded = { coded_list (coded_list stmt.the_row.coded) };

    ghost view = { λ c. c.codes.items };

    ghost invariant = { λ c. length c.codes.items ≤ 256 };
}

impl Codes {
    /// No codes. It takes no memory.
    pub fn new(alloc: Global) -> Codes
        ensures { result ≡ [] }
    {
        Codes {
            codes: Vec::new(alloc),
        }
    }

    /// Appends a code and answers its number. When out of memory, nothing has changed, and the
    /// code is given up.
    pub fn push(&mut self, code: Code) -> Result<u16, Memory>
        requires { length self.old < 256 }
        ensures number { IfOk result (λ number. number ≡ length self.old) }
        ensures ok { OnOk result (self.new ≡ self.old ++ code ∷ []) }
        ensures err { OnErr result (self.new ≡ self.old) }
    {
        let number = self.codes.len() as u16;
        self.codes.push(code)?;
        Ok(number)
    }

    /// How many codes there are.
    pub fn len(&self) -> usize
        ensures value { result ≡ length self.now }
        ensures few { result ≤ 256 }
    {
        self.codes.len()
    }

    /// The number of the code that comes this many codes after another.
    pub fn number_after(&self, first: u16, count: u16) -> u16
        requires { first + count < length self.now }
        ensures { result ≡ first + count }
    {
        let _codes = self.codes.as_slice();
        first + count
    }

    /// The instructions of a program.
    pub(crate) fn instrs(&self, program: u16) -> &[Instr]
        requires { program < length self.now }
        ensures layout { result.now ≡ code_of self.now program }
        ensures range { AreInRange result.now }
    {
        self.codes[program as usize].instrs()
    }
}

impl Code {
    fn instrs(&self) -> &[Instr]
        ensures layout { result.now ≡ body_code 0 self.now }
        ensures range { AreInRange result.now }
    {
        self.instrs.as_slice()
    }
}
