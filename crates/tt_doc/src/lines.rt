//! The lines of a document.
ghost use Rattle.std.specs.Prelude.{◌≡◌, ◌↔◌, ◌+◌, ◌≤◌, ◌==◌, ◌∷◌, length, drop, true, not, None};
ghost use Rattle.std.specs.List.{list_all, position_or_len};
ghost use Rattle.tt_doc.specs.LineStep.{IfLine, IfFault, BeginsWithFault};
ghost use Rattle.tt_doc.specs.Span.{text_of};
ghost use Rattle.tt_doc.specs.Lines.{lines_of, fault_of, is_plain_byte};

/// A stretch of a document: the bytes from `start` up to but not including `end`.
#[derive(Clone, Copy, Debug, Default, PartialEq, Eq)]
pub struct Span {
    pub start: usize,
    pub end: usize,
}

/// What can be wrong with a line by itself. Of several faults, the first in this order counts.
#[derive(Clone, Copy, Debug, PartialEq, Eq)]
pub enum LineKind {
    /// A byte outside 0x20 to 0x7E.
    Byte,
    /// More than 200 bytes.
    Long,
    /// No LF at its end.
    Cut,
}

/// The next line of a document.
#[derive(Clone, Copy, Debug, PartialEq, Eq)]
pub enum LineStep {
    /// There is none.
    End,
    /// Its bytes without the LF, and the place after the LF.
    Line(Span, usize),
    /// It has a fault of this kind.
    Fault(LineKind),
}

/// The most bytes that a line has, without its LF.
const MOST_BYTES: usize = 200;

/// How many bytes are tested together.
const CHUNK: usize = 16;

/// Whether these bytes are plain. It tests all of them, so that they are tested together.
#[inline(always)]
fn is_plain_chunk(chunk: &[u8]) -> bool
    ensures { result ≡ list_all is_plain_byte chunk.now }
{
    let mut is_plain = true;
    for b in chunk {
        is_plain &= matches!(b, 0x20..=0x7E);
    }
    is_plain
}

/// How many plain bytes a text begins with, tested one after another.
#[inline(always)]
fn short_plain_len(text: &[u8]) -> usize
    ensures value { result ≡ position_or_len (λ b. not (is_plain_byte b)) text.now }
    ensures inside { result ≤ length text.now }
{
    for (n, b) in text.iter().enumerate() {
        if !matches!(b, 0x20..=0x7E) {
            return n;
        }
    }
    text.len()
}

/// How many plain bytes a text begins with.
#[inline(always)]
fn plain_len(text: &[u8]) -> usize
    ensures value { result ≡ position_or_len (λ b. not (is_plain_byte b)) text.now }
    ensures inside { result ≤ length text.now }
{
    let mut n = 0;
    while CHUNK <= text.len() - n && is_plain_chunk(&text[n..n + CHUNK]) {
        n += CHUNK;
    }
    n + short_plain_len(&text[n..])
}

/// The line of a document that begins at the place `at`, and what is wrong with it by itself.
///
/// The document ends at its length: `End` is answered exactly there. A line ends with a LF, which
/// is not among its bytes, and has at most 200 bytes. The bytes after the last LF are a line
/// without one, which is a fault.
pub fn next_line(bytes: &[u8], at: usize) -> LineStep
    requires { at ≤ length bytes.now }
    ensures end { (result ≡ LineStep.End) ↔ (at ≡ length bytes.now) }

    ensures start { IfLine result (λ span next. span.start ≡ at) }
    ensures ordered { IfLine result (λ span next. span.start ≤ span.end) }
    ensures short { IfLine result (λ span next. span.end ≤ span.start + 200) }
    ensures next { IfLine result (λ span next. span.end + 1 ≡ next) }
    ensures inside { IfLine result (λ span next. next ≤ length bytes.now) }
    ensures line { IfLine result (λ span next. lines_of (drop at bytes.now)
        ≡ record { text = text_of bytes.now span; ended = true } ∷ lines_of (drop next bytes.now)) }
    ensures good { IfLine result
        (λ span next. fault_of (record { text = text_of bytes.now span; ended = true }) ≡ None) }

    ensures fault { IfFault result (BeginsWithFault (lines_of (drop at bytes.now))) }
{
    if at == bytes.len() {
        return LineStep::End;
    }
    let rest = &bytes[at..];
    let len = plain_len(rest);
    if len == rest.len() {
        LineStep::Fault(if len > MOST_BYTES {
            LineKind::Long
        } else {
            LineKind::Cut
        })
    } else if rest[len] != b'\n' {
        LineStep::Fault(LineKind::Byte)
    } else if len > MOST_BYTES {
        LineStep::Fault(LineKind::Long)
    } else {
        let end = at + len;
        LineStep::Line(Span { start: at, end }, end + 1)
    }
}
