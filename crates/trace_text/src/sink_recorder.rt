//! A recorder that writes the line of each event to a sink.

ghost use Rattle.std.specs.Io.KnownBytes.{Appends};
ghost use Rattle.std.specs.Prelude.{◌≡◌, ◌≤◌, [], OnOk, OnErr, IsTrue};
ghost use Rattle.tt_io.specs.Count.{Rose};
ghost use Rattle.tt_io.specs.Known.{AppendsPart};

use crate::line_buffer::LineBuffer;
use crate::stamp::Stamp;
use crate::{Noted, Recorder};
use tt_base::{Event, Names};
use tt_io::{Sink, WriteFault};

/// How many bytes a line has at most, its LF included.
const LINE_BYTES: usize = 96;

/// Appends the line of each event to a sink. Lines wait in a buffer, so that many make one write:
/// `finish` sends what waits at the end. After a note that failed it takes no event.
#[derive(Drop)]
pub struct SinkRecorder<'a, O: Sink> {
    sink: &'a mut O,
    failed: bool,
    stamp: Stamp,
    waiting: LineBuffer,
}

impl<'a, O: Sink> SinkRecorder<'a, O> {
    ghost use Rattle.trace_text.specs.SinkRecorder.{sink_of, takes, waiting_in};

    /// A recorder that borrows this sink, and in which nothing waits.
    pub fn new(sink: &'a mut O) -> SinkRecorder<'a, O>
        ensures same_sink { (sink_of result).ghost_name ≡ sink.entry.ghost_name }
        ensures sink { (sink_of result).now ≡ sink.old }
        ensures none_waits { waiting_in result ≡ [] }
        ensures ready { IsTrue (takes result) }
    {
        SinkRecorder {
            sink,
            failed: false,
            stamp: Stamp::new(0),
            waiting: LineBuffer::new(),
        }
    }

    /// Sends what waits to the sink.
    pub fn finish(self) -> Result<(), WriteFault>
        ensures ok { OnOk result (Appends (O.written (sink_of self.entry).now)
            (O.written self.exit.0.now) (waiting_in self.entry)) }
        ensures part { OnErr result (AppendsPart (O.written (sink_of self.entry).now)
            (O.written self.exit.0.now) (waiting_in self.entry)) }
        ensures cause { OnErr result (
            Rose (O.faults (sink_of self.entry).now) (O.faults self.exit.0.now)) }
        ensures never_falls { O.faults (sink_of self.entry).now ≤ O.faults self.exit.0.now }
    {
        let SinkRecorder {
            sink,
            failed: _,
            stamp: _,
            mut waiting,
        } = self;
        waiting.send(sink)
    }
}

impl<'a, O: Sink> Recorder for SinkRecorder<'a, O> {
    ghost use Rattle.trace_text.specs.Lines.{line_of};
    ghost use Rattle.trace_text.specs.SinkRecorder.{Cuts, Puts, sink_of, takes};

    ghost ready = { takes };

    ghost kept = { λ s event names t. Puts O.written s (line_of names event) t };

    ghost cut = { λ s event names t. Cuts O.written s (line_of names event) t };

    ghost faults = { λ s. O.faults (sink_of s).now };

    fn note(&mut self, event: &Event, names: &Names) -> Noted {
        if self.waiting.room() < LINE_BYTES {
            if self.waiting.send(self.sink).is_err() {
                self.failed = true;
                return Noted::Failed;
            }
        }
        self.waiting.event(&mut self.stamp, names, event);
        Noted::Kept
    }
}
