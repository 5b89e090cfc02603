//! The line of an event.

ghost use Rattle.std.specs.Prelude.{◌≡◌, ◌≤◌, length};
ghost use Rattle.trace_text.specs.Lines.{line_of};

use crate::line::Line;
use crate::line_buffer::LineBuffer;
use crate::stamp::Stamp;
use tt_base::{Event, Names};

/// The line of an event, its LF included: at most 96 bytes. Its stamp in ticks comes first, and one
/// space is between words. A thing that the names do not have is an empty word. The words are the
/// bench's own.
pub fn line_of(event: &Event, names: &Names) -> Line
    ensures line { result ≡ line_of names.now event.now }
    ensures few { length result ≤ 96 }
{
    let mut buffer = LineBuffer::new();
    buffer.event(&mut Stamp::new(0), names, event);
    Line::begun(buffer.as_bytes())
}
