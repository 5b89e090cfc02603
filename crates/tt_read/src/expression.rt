//! The terms of an expression.

ghost use Rattle.std.specs.Prelude.{◌≡◌, ◌<◌, ◌≤◌, [], length, IfOk, OnOk, OnSome};
ghost use Rattle.tt_read.specs.Reading.{op_of, term_of, terms_of, expected_after, expression_of};

use crate::cursor::Cursor;
use std::alloc::Global;
use task_lang::Op;
use tt_base::{Memory, Name};
use tt_doc::integer;
use tt_rows::{Term, Terms};

/// A word as an operator.
#[tactic(auto, unfolding(crate::specs::Reading::op_of))]
fn operator(word: &[u8]) -> Option<Op>
    ensures { result ≡ op_of word.now }
{
    match word {
        b"+" => Some(Op::Add),
        b"-" => Some(Op::Sub),
        b"*" => Some(Op::Mul),
        b"<" => Some(Op::Less),
        b"<=" => Some(Op::AtMost),
        b"==" => Some(Op::Same),
        b"!=" => Some(Op::Differ),
        _ => None,
    }
}

/// A word as a term: an operator, an integer or a name.
#[tactic(auto, unfolding(crate::specs::Reading::term_of))]
pub fn term(word: &[u8]) -> Option<Term>
    ensures { result ≡ term_of word.now }
{
    if let Some(op) = operator(word) {
        return Some(Term::Op(op));
    }
    if let Some(value) = integer(word) {
        return Some(Term::Int(value));
    }
    Name::new(word).map(Term::Name)
}

/// How many expressions are still expected after a term, where `expected` were before it.
fn expected_after(term: &Term, expected: u8) -> u8
    requires some { 0 < expected }
    requires few { expected ≤ 101 }
    ensures { result ≡ expected_after term.now expected }
{
    match term {
        Term::Int(_) | Term::Name(_) => expected - 1,
        Term::Op(_) => expected + 1,
    }
}

/// All words that are left, if they are one expression.
pub fn expression(alloc: Global, words: &mut Cursor) -> Result<Option<Terms>, Memory>
    requires { length words.old ≤ 100 }
    ensures value { IfOk result (λ terms. terms ≡ expression_of (terms_of words.old)) }
    ensures rest { IfOk result (λ terms. OnSome terms (words.new ≡ [])) }
{
    let mut terms = Terms::from_vec(Vec::with_capacity(alloc, words.most())?);
    let mut expected = 1;
    while let Some(word) = words.word() {
        if expected == 0 {
            return Ok(None);
        }
        let Some(term) = term(word) else {
            return Ok(None);
        };
        expected = expected_after(&term, expected);
        terms.push(term)?;
    }
    if expected == 0 {
        Ok(Some(terms))
    } else {
        Ok(None)
    }
}
