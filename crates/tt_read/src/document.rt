//! Reading documents.

ghost use Rattle.std.specs.Prelude.{◌≡◌, ◌+◌, ◌<◌, ◌≤◌, ◌^◌, ◌++◌, [], length, true, Some, None, IfOk, IfErr, OnOk};
ghost use Rattle.tt_doc.specs.Span.{text_of};
ghost use Rattle.tt_doc.specs.Words.{words_of};
ghost use Rattle.tt_rows.specs.Sound.{AreSound};
ghost use Rattle.tt_read.specs.Document.{Document, document_of, row_then, row_of_words, word_fault};
ghost use Rattle.tt_read.specs.FormFault.{IfForm};

use crate::cursor::Cursor;
use crate::fields::row_of;
use crate::form::{FormFault, FormKind};
use std::alloc::Global;
use tt_base::Memory;
use tt_doc::{LineStep, Span, next_line};
use tt_rows::{NumberedRow, Rows};

/// Appends the row of a line that has no fault of its bytes, where it has a row.
#[tactic(auto, using(crate::proofs::LineContent::row_of_line))]
fn read_line(
    alloc: Global,
    bytes: &[u8],
    span: Span,
    line: u32,
    rows: &mut Rows,
) -> Result<(), FormFault>
    requires ordered { span.start ≤ span.end }
    requires short { span.end ≤ span.start + 200 }
    requires inside { span.end ≤ length bytes.now }

    ensures good { OnOk result (word_fault (words_of (text_of bytes.now span)) ≡ None) }
    ensures appended { OnOk result
        (rows.new ≡ rows.old ++ row_then line (row_of_words (words_of (text_of bytes.now span)))
        []) }

    ensures form { IfErr result
        (λ fault. IfForm fault (λ form. (form ≡ record { line = line; kind = FormKind.Row })
        × (word_fault (words_of (text_of bytes.now span)) ≡ Some FormKind.Row))) }
{
    let mut words = Cursor::new(&bytes[span.start..span.end]);
    if words.is_comment() {
        return Ok(());
    }
    match row_of(alloc, &mut words)? {
        Some(row) => Ok(rows.push(NumberedRow { line, row })?),
        None => Err(FormFault::Form {
            line,
            kind: FormKind::Row,
        }),
    }
}

/// How many bytes the line of a row has at least, with its LF.
const LEAST_BYTES: usize = 4;

/// The empty list, with room for the rows that this many bytes can have. A list that grows would be
/// copied, and room that is not used is never touched.
fn no_rows(alloc: Global, bytes: usize) -> Result<Rows, Memory>
    ensures { IfOk result (λ rows. rows ≡ []) }
{
    Ok(Rows::from_vec(Vec::with_capacity(alloc, bytes / LEAST_BYTES)?))
}

/// The rows of a document, or what is wrong with its form.
///
/// A document is a list of lines, each ended by a LF. A line has words with spaces around them. A
/// line without words, or whose first word begins with `#`, is no row; the words of any other line
/// are a row. A fault names the first line that has one, and its least kind. The rows come with the
/// numbers of their lines, counted from 1.
pub fn read(alloc: Global, bytes: &[u8]) -> Result<Rows, FormFault>
    requires { length bytes.now < 2 ^ 32 }

    ensures rows { IfOk result (λ rows. document_of bytes.now ≡ Document.Rows rows) }
    ensures sound { IfOk result AreSound }

    ensures form { IfErr result
        (λ fault. IfForm fault (λ form. document_of bytes.now ≡ Document.Faulty form)) }
{
    let mut rows = no_rows(alloc, bytes.len())?;
    let mut at = 0;
    let mut line = 0;
    loop {
        match next_line(bytes, at) {
            LineStep::End => return Ok(rows),
            LineStep::Fault(kind) => {
                return Err(FormFault::Form {
                    line: line + 1,
                    kind: kind.into(),
                });
            }
            LineStep::Line(span, next) => {
                line += 1;
                read_line(alloc, bytes, span, line, &mut rows)?;
                at = next;
            }
        }
    }
}
