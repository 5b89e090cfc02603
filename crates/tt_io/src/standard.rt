//! The standard library's readers and writers as sources and sinks. A reader's source records what
//! it gave, but does not know what is left; a writer's sink records what it took. Where the bytes
//! of the reader or the writer itself are known, they pass through unchanged.

ghost use Rattle.std.specs.Io.KnownBytes.{Appends, Consumes, IsAtEnd, Keeps};
ghost use Rattle.std.specs.Prelude.{◌≡◌, ◌≢◌, ◌<◌, ◌≤◌, ◌++◌, if◌then◌else◌, ℕ, None, Some, [], is_ok, length, take};
ghost use Rattle.tt_io.specs.Count.{Rose, counted};
ghost use Rattle.tt_io.specs.Gave.{Gives, GivesAll};
ghost use Rattle.tt_io.specs.ReadStep.{IfGot, OnEnd, OnFailed};
ghost use Rattle.tt_io.specs.WriteStep.{IfTook, OnRefused};

use crate::count::count_more;
use crate::{History, ReadStep, Sink, Source, WriteStep};
use std::io;
use std::io::{Read, Write};

/// A reader as a source. It records what the reader gave and each end that it answered. Each error
/// of the reader is a fault, also that of an interrupted read.
#[derive(Drop)]
pub struct StdSource<R: Read + Drop> {
    reader: R,
    given: u64,
    faults: u64,
    history: History,
}

impl<R: Read + Drop> StdSource<R> {
    ghost use Rattle.tt_io.specs.StdSource.{reader_of, bytes_given, read_faults, history_of};

    /// The source of what the reader gives from here on.
    pub fn new(reader: R) -> StdSource<R>
        ensures reader { reader_of result ≡ reader }
        ensures counts { (bytes_given result ≡ 0) × (read_faults result ≡ 0) }
        ensures none { history_of result ≡ [] }
    {
        StdSource {
            reader,
            given: 0,
            faults: 0,
            history: History::new(),
        }
    }
}

impl<R: Read + Drop> Source for StdSource<R> {
    ghost use Rattle.tt_io.specs.StdSource.{reader_of, bytes_given, read_faults, history_of};

    ghost left = { λ _. None };

    ghost given = { λ s. bytes_given s };

    ghost gave = { λ s. history_of s };

    ghost faults = { λ s. read_faults s };

    fn read(&mut self, buf: &mut [u8]) -> ReadStep
        requires { 0 < length buf.old }

        ensures size { IfGot result (λ n. (0 < n) × (n ≤ length buf.new)) }
        ensures got { IfGot result (λ n. Consumes (R.remaining (reader_of self.old))
            (R.remaining (reader_of self.new)) (take n buf.new)) }
        ensures got_count { IfGot result (λ n.
            bytes_given self.new ≡ counted (bytes_given self.old) n) }
        ensures got_gave { IfGot result (λ n.
            Gives (history_of self.old) (history_of self.new) (take n buf.new)) }

        ensures end { OnEnd result (IsAtEnd (R.remaining (reader_of self.new))
            × (bytes_given self.new ≡ bytes_given self.old)) }
        ensures end_gave { OnEnd result (
            GivesAll (history_of self.old) (history_of self.new) []) }

        ensures failed { OnFailed result (Keeps (R.remaining (reader_of self.old))
            (R.remaining (reader_of self.new)) × (bytes_given self.new ≡ bytes_given self.old)) }
        ensures failed_gave { OnFailed result (history_of self.new ≡ history_of self.old) }
        ensures fault { OnFailed result (read_faults self.new ≡ counted (read_faults self.old) 1) }
        ensures no_fault { result ≢ ReadStep.Failed → read_faults self.new ≡ read_faults self.old }
        ensures cause { OnFailed result (Rose (read_faults self.old) (read_faults self.new)) }

        ensures never_falls { read_faults self.old ≤ read_faults self.new }
    {
        match self.reader.read(buf) {
            Ok(0) => {
                self.history = self.history.with_end();
                ReadStep::End
            }
            Ok(n) => {
                self.given = count_more(self.given, n);
                self.history = self.history.with_piece(&buf[..n]);
                ReadStep::Got(n)
            }
            Err(_) => {
                self.faults = count_more(self.faults, 1);
                ReadStep::Failed
            }
        }
    }
}

/// A writer as a sink. It records the bytes of the writes that took some. Where the bytes of the
/// writer itself are known, these were appended to them.
#[derive(Drop)]
pub struct StdSink<W: Write + Drop> {
    writer: W,
    faults: u64,
    history: History,
}

impl<W: Write + Drop> StdSink<W> {
    ghost use Rattle.tt_io.specs.StdSink.{writer_of, write_faults, bytes_taken};

    /// The sink that writes to the writer.
    pub fn new(writer: W) -> StdSink<W>
        ensures writer { writer_of result ≡ writer }
        ensures count { write_faults result ≡ 0 }
        ensures none { bytes_taken result ≡ [] }
    {
        StdSink {
            writer,
            faults: 0,
            history: History::new(),
        }
    }
}

impl<W: Write + Drop> Sink for StdSink<W> {
    ghost use Rattle.tt_io.specs.StdSink.{writer_of, write_faults, bytes_taken};

    ghost written = { λ s. Some (bytes_taken s) };

    ghost faults = { λ s. write_faults s };

    /// Each error of the writer is a fault. So is a write of nothing, and a failed flush after a
    /// write.
    fn write(&mut self, piece: &[u8]) -> WriteStep
        requires { 0 < length piece.now }

        ensures size { IfTook result (λ n. (0 < n) × (n ≤ length piece.now)) }
        ensures took { IfTook result (λ n. Appends (W.contents (writer_of self.old))
            (W.contents (writer_of self.new)) (take n piece.now)) }
        ensures kept { IfTook result (λ n.
            bytes_taken self.new ≡ bytes_taken self.old ++ take n piece.now) }

        // A prefix of the piece may have gone out all the same, for example where the flush after a
        // write failed.
        ensures refused { OnRefused result ((n : ℕ) × (n ≤ length piece.now)
            × Appends (W.contents (writer_of self.old)) (W.contents (writer_of self.new))
            (take n piece.now)) }
        ensures kept_none { OnRefused result (bytes_taken self.new ≡ bytes_taken self.old) }
        ensures fault { OnRefused result (
            write_faults self.new ≡ counted (write_faults self.old) 1) }
        ensures no_fault { result ≢ WriteStep.Failed
            → write_faults self.new ≡ write_faults self.old }
        ensures cause { OnRefused result (Rose (write_faults self.old) (write_faults self.new)) }

        ensures never_falls { write_faults self.old ≤ write_faults self.new }
    {
        let step = match self.writer.write(piece) {
            Ok(0) | Err(_) => WriteStep::Failed,
            Ok(taken) => step_of(taken, self.writer.flush()),
        };
        match step {
            WriteStep::Took(n) => self.history = self.history.with_piece(&piece[..n]),
            WriteStep::Failed => self.faults = count_more(self.faults, 1),
        }
        step
    }
}

/// The answer to a write of which the writer took this many bytes and was then flushed.
fn step_of(taken: usize, flushed: io::Result<()>) -> WriteStep
    ensures { result ≡ (if is_ok flushed then WriteStep.Took taken else WriteStep.Failed) }
{
    if flushed.is_ok() {
        WriteStep::Took(taken)
    } else {
        WriteStep::Failed
    }
}
