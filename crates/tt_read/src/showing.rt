//! Showing documents.

ghost use Rattle.std.specs.Prelude.{◌≡◌, ◌∷◌, ◌++◌, [], ◌≤◌, OnErr, OnOk, flat_map, drop, codes, decimal, length, ◌<◌};
ghost use Rattle.std.specs.Fmt.{signed_decimal};
ghost use Rattle.std.specs.Io.KnownBytes.{Appends};
ghost use Rattle.tt_io.specs.Count.{Rose};
ghost use Rattle.tt_io.specs.Known.{AppendsPart};
ghost use Rattle.tt_rows.specs.Spelling.{Key, Named, Number, items_of, line_of_row, op_word};
ghost use Rattle.tt_read.specs.Document.{canonical_text};
ghost use Rattle.tt_read.specs.Keywords.{keyword_text};
ghost use Rattle.tt_read.specs.Parts.{spaced, spaced_term, spaced_item, spaced_part};
ghost use Rattle.tt_read.specs.Puts.{Puts};

use crate::keyword::Keyword;
use task_lang::Op;
use tt_base::Name;
use tt_io::{Buffer, Sink, WriteFault};
use tt_rows::{NumberedRow, Row, Rows, Term, Terms};

/// A part of a row's line after its first word.
#[derive(Clone, Copy)]
enum Part<'a> {
    Key(Keyword),
    Number(u64),
    Named(Name),
    Integer(i32),
    Expression(&'a [Term]),
}

fn operator_text(op: Op) -> &'static [u8]
    ensures { result.now ≡ op_word op }
{
    match op {
        Op::Add => b"+",
        Op::Sub => b"-",
        Op::Mul => b"*",
        Op::Less => b"<",
        Op::AtMost => b"<=",
        Op::Same => b"==",
        Op::Differ => b"!=",
    }
}

/// Puts a word with a space in front.
#[inline(always)]
fn put_word<O: Sink>(word: &[u8], buffer: &mut Buffer, sink: &mut O) -> Result<(), WriteFault>
    ensures text { Puts result (O.written sink.old) (O.written sink.new) buffer.old buffer.new
        (spaced word.now) }
    ensures cause { OnErr result (Rose (O.faults sink.old) (O.faults sink.new)) }
    ensures never_falls { O.faults sink.old ≤ O.faults sink.new }
{
    buffer.put(sink, b" ")?;
    buffer.put(sink, word)
}

/// Puts a number as a word with a space in front.
fn put_number<O: Sink>(number: u64, buffer: &mut Buffer, sink: &mut O) -> Result<(), WriteFault>
    ensures text { Puts result (O.written sink.old) (O.written sink.new) buffer.old buffer.new
        (spaced (decimal number)) }
    ensures cause { OnErr result (Rose (O.faults sink.old) (O.faults sink.new)) }
    ensures never_falls { O.faults sink.old ≤ O.faults sink.new }
{
    let mut digits = itoa::Buffer::new();
    put_word(digits.format(number).as_bytes(), buffer, sink)
}

/// Puts an integer as a word with a space in front.
fn put_integer<O: Sink>(value: i32, buffer: &mut Buffer, sink: &mut O) -> Result<(), WriteFault>
    ensures text { Puts result (O.written sink.old) (O.written sink.new) buffer.old buffer.new
        (spaced (signed_decimal value)) }
    ensures cause { OnErr result (Rose (O.faults sink.old) (O.faults sink.new)) }
    ensures never_falls { O.faults sink.old ≤ O.faults sink.new }
{
    let mut digits = itoa::Buffer::new();
    put_word(digits.format(value).as_bytes(), buffer, sink)
}

/// Puts a term of an expression as a word with a space in front.
fn put_term<O: Sink>(term: &Term, buffer: &mut Buffer, sink: &mut O) -> Result<(), WriteFault>
    ensures text { Puts result (O.written sink.old) (O.written sink.new) buffer.old buffer.new
        (spaced_term term.now) }
    ensures cause { OnErr result (Rose (O.faults sink.old) (O.faults sink.new)) }
    ensures never_falls { O.faults sink.old ≤ O.faults sink.new }
{
    match term {
        Term::Int(value) => put_integer(*value, buffer, sink),
        Term::Name(name) => put_word(name.as_bytes(), buffer, sink),
        Term::Op(op) => put_word(operator_text(*op), buffer, sink),
    }
}

/// Puts the terms of an expression.
fn put_terms<O: Sink>(terms: &[Term], buffer: &mut Buffer, sink: &mut O) -> Result<(), WriteFault>
    ensures text { Puts result (O.written sink.old) (O.written sink.new) buffer.old buffer.new
        (flat_map spaced_term terms.now) }
    ensures cause { OnErr result (Rose (O.faults sink.old) (O.faults sink.new)) }
    ensures never_falls { O.faults sink.old ≤ O.faults sink.new }
{
    for term in terms {
        put_term(term, buffer, sink)?;
    }
    Ok(())
}

/// Puts a part of a row's line, each word with a space in front.
#[inline(always)]
fn put_part<O: Sink>(part: &Part, buffer: &mut Buffer, sink: &mut O) -> Result<(), WriteFault>
    ensures text { Puts result (O.written sink.old) (O.written sink.new) buffer.old buffer.new
        (spaced_part part.now) }
    ensures cause { OnErr result (Rose (O.faults sink.old) (O.faults sink.new)) }
    ensures never_falls { O.faults sink.old ≤ O.faults sink.new }
{
    match part {
        Part::Key(keyword) => put_word(keyword.text(), buffer, sink),
        Part::Number(number) => put_number(*number, buffer, sink),
        Part::Named(name) => put_word(name.as_bytes(), buffer, sink),
        Part::Integer(value) => put_integer(*value, buffer, sink),
        Part::Expression(terms) => put_terms(terms, buffer, sink),
    }
}

/// Puts the parts of a row's line after its first word.
fn put_parts<O: Sink>(parts: &[Part], buffer: &mut Buffer, sink: &mut O) -> Result<(), WriteFault>
    ensures text { Puts result (O.written sink.old) (O.written sink.new) buffer.old buffer.new
        (flat_map spaced_part parts.now) }
    ensures cause { OnErr result (Rose (O.faults sink.old) (O.faults sink.new)) }
    ensures never_falls { O.faults sink.old ≤ O.faults sink.new }
{
    for part in parts {
        put_part(part, buffer, sink)?;
    }
    Ok(())
}

/// Puts the one part of a row's line after its first word.
#[inline(always)]
fn put_one_part<O: Sink>(part: &Part, buffer: &mut Buffer, sink: &mut O) -> Result<(), WriteFault>
    ensures text { Puts result (O.written sink.old) (O.written sink.new) buffer.old buffer.new
        (flat_map spaced_part (part.now ∷ [])) }
    ensures cause { OnErr result (Rose (O.faults sink.old) (O.faults sink.new)) }
    ensures never_falls { O.faults sink.old ≤ O.faults sink.new }
{
    put_part(part, buffer, sink)
}

/// The first word of a row's line.
fn first_word(row: &Row) -> Keyword
    ensures { items_of row.now ≡ Key (keyword_text result) ∷ drop 1 (items_of row.now) }
{
    match row {
        Row::Header => Keyword::Osektime,
        Row::Round(_) => Keyword::Round,
        Row::Adjust(_) => Keyword::Adjust,
        Row::Mode(_) => Keyword::Mode,
        Row::Var(..) => Keyword::Var,
        Row::Demand(..) => Keyword::Demand,
        Row::Task(..) => Keyword::Task,
        Row::Isr(..) | Row::IsrFar(..) => Keyword::Isr,
        Row::Osek(..) | Row::OsekAuto(..) => Keyword::Osek,
        Row::Oisr(..) => Keyword::Oisr,
        Row::HookError | Row::HookShutdown => Keyword::Hook,
        Row::AtStringent(..) | Row::AtNonstringent(..) | Row::AtEnable(..) => Keyword::At,
        Row::Start(_) => Keyword::Start,
        Row::Rounds(_) => Keyword::Rounds,
        Row::Value(..) => Keyword::Value,
        Row::Arrive(..) => Keyword::Arrive,
        Row::Time(_) => Keyword::Time,
        Row::Work(_) => Keyword::Work,
        Row::Take(_) => Keyword::Take,
        Row::Set(..) => Keyword::Set,
        Row::If(_) => Keyword::If,
        Row::Else => Keyword::Else,
        Row::Repeat(_) => Keyword::Repeat,
        Row::End => Keyword::End,
        Row::Out(_) => Keyword::Out,
        Row::Switch(_) => Keyword::Switch,
        Row::Sync => Keyword::Sync,
        Row::Shutdown => Keyword::Shutdown,
        Row::Activate(_) => Keyword::Activate,
        Row::Chain(_) => Keyword::Chain,
        Row::Terminate => Keyword::Terminate,
    }
}

/// Puts the fields of a row's line after its first word.
fn put_fields<O: Sink>(row: &Row, buffer: &mut Buffer, sink: &mut O) -> Result<(), WriteFault>
    ensures text { Puts result (O.written sink.old) (O.written sink.new) buffer.old buffer.new
        (flat_map spaced_item (drop 1 (items_of row.now))) }
    ensures cause { OnErr result (Rose (O.faults sink.old) (O.faults sink.new)) }
    ensures never_falls { O.faults sink.old ≤ O.faults sink.new }
{
    match row {
        Row::Header => put_one_part(&Part::Key(Keyword::One), buffer, sink),
        Row::HookError => put_one_part(&Part::Key(Keyword::Error), buffer, sink),
        Row::HookShutdown => put_one_part(&Part::Key(Keyword::Shutdown), buffer, sink),
        Row::Else | Row::End | Row::Sync | Row::Shutdown | Row::Terminate => {
            put_parts(&[], buffer, sink)
        }
        Row::Round(n)
        | Row::Adjust(n)
        | Row::Rounds(n)
        | Row::Time(n)
        | Row::Work(n)
        | Row::Repeat(n) => { put_one_part(&Part::Number(*n), buffer, sink) }
        Row::Mode(name)
        | Row::Start(name)
        | Row::Take(name)
        | Row::Switch(name)
        | Row::Activate(name)
        | Row::Chain(name) => { put_one_part(&Part::Named(*name), buffer, sink) }
        Row::If(terms) | Row::Out(terms) => {
            put_one_part(&Part::Expression(terms.as_slice()), buffer, sink)
        }
        _ => put_some_fields(row, buffer, sink),
    }
}

/// Puts the fields of a row's line where there are several.
#[inline(never)]
fn put_some_fields<O: Sink>(row: &Row, buffer: &mut Buffer, sink: &mut O) -> Result<(), WriteFault>
    requires { 2 < length (items_of row.now) }
    ensures text { Puts result (O.written sink.old) (O.written sink.new) buffer.old buffer.new
        (flat_map spaced_item (drop 1 (items_of row.now))) }
    ensures cause { OnErr result (Rose (O.faults sink.old) (O.faults sink.new)) }
    ensures never_falls { O.faults sink.old ≤ O.faults sink.new }
{
    match row {
        Row::Task(name, n)
        | Row::Osek(name, n)
        | Row::Oisr(name, n)
        | Row::Value(name, n)
        | Row::Arrive(name, n) => {
            put_parts(&[Part::Named(*name), Part::Number(*n)], buffer, sink)
        }
        Row::Var(name, value) => {
            put_parts(&[Part::Named(*name), Part::Integer(*value)], buffer, sink)
        }
        Row::Set(var, terms) => {
            let parts = [Part::Named(*var), Part::Expression(terms.as_slice())];
            put_parts(&parts, buffer, sink)
        }
        Row::Demand(name, n, m) | Row::Isr(name, n, m) => {
            let parts = [Part::Named(*name), Part::Number(*n), Part::Number(*m)];
            put_parts(&parts, buffer, sink)
        }
        Row::OsekAuto(name, n) => {
            let parts = [
                Part::Named(*name),
                Part::Number(*n),
                Part::Key(Keyword::Auto),
            ];
            put_parts(&parts, buffer, sink)
        }
        _ => put_many_fields(row, buffer, sink),
    }
}

/// Puts the fields of a row's line where there are more than three.
fn put_many_fields<O: Sink>(row: &Row, buffer: &mut Buffer, sink: &mut O) -> Result<(), WriteFault>
    requires { 4 < length (items_of row.now) }
    ensures text { Puts result (O.written sink.old) (O.written sink.new) buffer.old buffer.new
        (flat_map spaced_item (drop 1 (items_of row.now))) }
    ensures cause { OnErr result (Rose (O.faults sink.old) (O.faults sink.new)) }
    ensures never_falls { O.faults sink.old ≤ O.faults sink.new }
{
    match row {
        Row::IsrFar(name, level, stack, distance) => {
            let parts = [
                Part::Named(*name),
                Part::Number(*level),
                Part::Number(*stack),
                Part::Number(*distance),
            ];
            put_parts(&parts, buffer, sink)
        }
        Row::AtStringent(offset, mode, task, deadline) => {
            let last = Keyword::Stringent;
            put_activation(*offset, *mode, *task, *deadline, last, buffer, sink)
        }
        Row::AtNonstringent(offset, mode, task, deadline) => {
            let last = Keyword::Nonstringent;
            put_activation(*offset, *mode, *task, *deadline, last, buffer, sink)
        }
        Row::AtEnable(offset, mode, isr) => {
            let parts = [
                Part::Number(*offset),
                Part::Named(*mode),
                Part::Key(Keyword::Enable),
                Part::Named(*isr),
            ];
            put_parts(&parts, buffer, sink)
        }
        _ => unreachable!(),
    }
}

/// Puts the fields of an activation's line. This word of the language is the last of them.
fn put_activation<O: Sink>(
    offset: u64,
    mode: Name,
    task: Name,
    deadline: u64,
    last: Keyword,
    buffer: &mut Buffer,
    sink: &mut O,
) -> Result<(), WriteFault>
    ensures text { Puts result (O.written sink.old) (O.written sink.new) buffer.old buffer.new
        (flat_map spaced_item
        (Number offset ∷ Named mode ∷ Key (codes "activate") ∷ Named task ∷ Number deadline ∷ Key
        (keyword_text last) ∷ [])) }
    ensures cause { OnErr result (Rose (O.faults sink.old) (O.faults sink.new)) }
    ensures never_falls { O.faults sink.old ≤ O.faults sink.new }
{
    let parts = [
        Part::Number(offset),
        Part::Named(mode),
        Part::Key(Keyword::Activate),
        Part::Named(task),
        Part::Number(deadline),
        Part::Key(last),
    ];
    put_parts(&parts, buffer, sink)
}

/// Puts the line of a row.
fn put_row<O: Sink>(row: &Row, buffer: &mut Buffer, sink: &mut O) -> Result<(), WriteFault>
    ensures text { Puts result (O.written sink.old) (O.written sink.new) buffer.old buffer.new
        (line_of_row row.now ++ 10 ∷ []) }
    ensures cause { OnErr result (Rose (O.faults sink.old) (O.faults sink.new)) }
    ensures never_falls { O.faults sink.old ≤ O.faults sink.new }
{
    buffer.put(sink, first_word(row).text())?;
    put_fields(row, buffer, sink)?;
    buffer.put(sink, b"\n")
}

/// Puts the lines of rows.
fn put_rows<O: Sink>(
    rows: &[NumberedRow],
    buffer: &mut Buffer,
    sink: &mut O,
) -> Result<(), WriteFault>
    ensures text { Puts result (O.written sink.old) (O.written sink.new) buffer.old buffer.new
        (canonical_text rows.now) }
    ensures cause { OnErr result (Rose (O.faults sink.old) (O.faults sink.new)) }
    ensures never_falls { O.faults sink.old ≤ O.faults sink.new }
{
    for row in rows {
        put_row(&row.row, buffer, sink)?;
    }
    Ok(())
}

/// Writes the canonical text of the rows: one line for each row, its words with one space between
/// them. It takes no memory. After a fault a proper prefix of the text was written.
pub fn show<O: Sink>(rows: &Rows, sink: &mut O) -> Result<(), WriteFault>
    ensures ok { OnOk result (Appends (O.written sink.old) (O.written sink.new)
        (canonical_text rows.now)) }

    ensures part { OnErr result
        (AppendsPart (O.written sink.old) (O.written sink.new) (canonical_text rows.now)) }
    ensures cause { OnErr result (Rose (O.faults sink.old) (O.faults sink.new)) }

    ensures never_falls { O.faults sink.old ≤ O.faults sink.new }
{
    let mut buffer = Buffer::new();
    put_rows(rows.as_slice(), &mut buffer, sink)?;
    buffer.send(sink)
}
