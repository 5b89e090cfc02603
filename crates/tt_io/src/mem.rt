//! Sources and sinks over memory.

ghost use Rattle.std.specs.Prelude.{◌≡◌, ◌≢◌, ◌<◌, ◌≤◌, ◌-◌, ◌⊎◌, ◌↔◌, ◌++◌, Some, None, [], length, take, min, IfOk, Contains, vec_len, vec_capacity};
ghost use Rattle.tt_io.specs.Count.{Rose, counted};
ghost use Rattle.tt_io.specs.Gave.{Gives, GivesAll};
ghost use Rattle.tt_io.specs.ReadStep.{IfGot, OnEnd, OnFailed};
ghost use Rattle.tt_io.specs.WriteStep.{IfTook, OnRefused};

use crate::count::count_more;
use crate::{History, ReadStep, Sink, Source, WriteStep};
use std::alloc::Global;
use tt_base::Memory;

/// Bytes that are given in their order, at most `chunk` at a time.
#[derive(Drop)]
struct Supply {
    bytes: Vec<u8>,
    at: usize,
    chunk: usize,
    given: u64,
    history: History,
    ghost gives: { 0 < chunk },
    ghost in_range: { at ≤ vec_len bytes },
}

impl Supply {
    ghost use Rattle.tt_io.specs.Supply.{bytes_left, gave_so_far};

    fn new(bytes: Vec<u8>, chunk: usize) -> Supply
        requires { 0 < chunk }
        ensures left { bytes_left result ≡ bytes.items }
        ensures chunk { result.chunk ≡ chunk }
        ensures count { result.given ≡ 0 }
        ensures none { gave_so_far result ≡ [] }
    {
        Supply {
            bytes,
            at: 0,
            chunk,
            given: 0,
            history: History::new(),
        }
    }

    /// Gives the next bytes, or the end where none is left.
    fn give(&mut self, buf: &mut [u8]) -> ReadStep
        requires { 0 < length buf.old }
        ensures sure { result ≢ ReadStep.Failed }

        ensures size { IfGot result (λ n. (0 < n)
            × (n ≡ min (length (bytes_left self.old)) (min self.old.chunk (length buf.new)))) }
        ensures got { IfGot result (λ n.
            bytes_left self.old ≡ take n buf.new ++ bytes_left self.new) }
        ensures got_count { IfGot result (λ n. self.new.given ≡ counted self.old.given n) }
        ensures got_gave { IfGot result (λ n.
            Gives (gave_so_far self.old) (gave_so_far self.new) (take n buf.new)) }

        ensures end { OnEnd result ((bytes_left self.old ≡ []) × (bytes_left self.new ≡ [])
            × (self.new.given ≡ self.old.given)) }
        ensures end_gave { OnEnd result (
            GivesAll (gave_so_far self.old) (gave_so_far self.new) []) }

        ensures same { self.new.chunk ≡ self.old.chunk }
    {
        let rest = &self.bytes[self.at..];
        let n = rest.len().min(self.chunk).min(buf.len());
        if n == 0 {
            self.history = self.history.with_end();
            return ReadStep::End;
        }
        buf[..n].copy_from_slice(&rest[..n]);
        self.history = self.history.with_piece(&buf[..n]);
        self.at += n;
        self.given = count_more(self.given, n);
        ReadStep::Got(n)
    }
}

/// Gives its bytes in chunks. Exactly the reads whose numbers are in `failing` fail.
#[derive(Drop)]
pub struct MemSource {
    supply: Supply,
    failing: Vec<u64>,
    calls: u64,
    faults: u64,
}

impl MemSource {
    ghost use Rattle.tt_io.specs.MemSource.{left_of, chunk_of, given_by, calls_of, failing_of, faults_of, history_of};

    /// A source of `bytes` that gives at most `chunk` of them at a time. Reads are numbered from 0.
    pub fn new(bytes: Vec<u8>, chunk: usize, failing: Vec<u64>) -> MemSource
        requires { 0 < chunk }
        ensures left { left_of result ≡ bytes.items }
        ensures chunk { chunk_of result ≡ chunk }
        ensures failing { failing_of result ≡ failing.items }
        ensures counts { (calls_of result ≡ 0) × (given_by result ≡ 0) × (faults_of result ≡ 0) }
        ensures none { history_of result ≡ [] }
    {
        MemSource {
            supply: Supply::new(bytes, chunk),
            failing,
            calls: 0,
            faults: 0,
        }
    }
}

impl Source for MemSource {
    ghost use Rattle.tt_io.specs.MemSource.{left_of, chunk_of, given_by, calls_of, failing_of, faults_of, history_of};

    ghost left = { λ s. Some (left_of s) };

    ghost given = { λ s. given_by s };

    ghost gave = { λ s. history_of s };

    ghost faults = { λ s. faults_of s };

    fn read(&mut self, buf: &mut [u8]) -> ReadStep
        requires { 0 < length buf.old }

        // The least of what is left, what one read gives, and what the buffer has room for.
        ensures size { IfGot result (λ n. (0 < n)
            × (n ≡ min (length (left_of self.old)) (min (chunk_of self.old) (length buf.new)))) }
        ensures got { IfGot result (λ n. left_of self.old ≡ take n buf.new ++ left_of self.new) }
        ensures got_count { IfGot result (λ n. given_by self.new ≡ counted (given_by self.old) n) }
        ensures got_gave { IfGot result (λ n.
            Gives (history_of self.old) (history_of self.new) (take n buf.new)) }

        ensures end { OnEnd result ((left_of self.old ≡ []) × (left_of self.new ≡ [])
            × (given_by self.new ≡ given_by self.old)) }
        ensures end_gave { OnEnd result (
            GivesAll (history_of self.old) (history_of self.new) []) }

        ensures failed { OnFailed result ((left_of self.new ≡ left_of self.old)
            × (given_by self.new ≡ given_by self.old)) }
        ensures failed_gave { OnFailed result (history_of self.new ≡ history_of self.old) }

        // A read fails exactly where its number is in `failing`; each failure is counted.
        ensures fails { (result ≡ ReadStep.Failed)
            ↔ Contains (failing_of self.old) (calls_of self.old) }
        ensures fault { OnFailed result (faults_of self.new ≡ counted (faults_of self.old) 1) }
        ensures no_fault { result ≢ ReadStep.Failed → faults_of self.new ≡ faults_of self.old }
        ensures cause { OnFailed result (Rose (faults_of self.old) (faults_of self.new)) }
        ensures never_falls { faults_of self.old ≤ faults_of self.new }

        ensures call { calls_of self.new ≡ counted (calls_of self.old) 1 }
        ensures same { (failing_of self.new ≡ failing_of self.old)
            × (chunk_of self.new ≡ chunk_of self.old) }
    {
        let call = self.calls;
        self.calls = count_more(call, 1);
        if self.failing.contains(&call) {
            self.faults = count_more(self.faults, 1);
            return ReadStep::Failed;
        }
        self.supply.give(buf)
    }
}

/// Gives its bytes in chunks, and never fails.
#[derive(Drop)]
pub struct SureSource {
    supply: Supply,
}

impl SureSource {
    ghost use Rattle.tt_io.specs.SureSource.{rest_of, most_of, given_of, history_of};

    /// A source of `bytes` that gives at most `chunk` of them at a time.
    pub fn new(bytes: Vec<u8>, chunk: usize) -> SureSource
        requires { 0 < chunk }
        ensures left { rest_of result ≡ bytes.items }
        ensures chunk { most_of result ≡ chunk }
        ensures count { given_of result ≡ 0 }
        ensures none { history_of result ≡ [] }
    {
        SureSource {
            supply: Supply::new(bytes, chunk),
        }
    }
}

impl Source for SureSource {
    ghost use Rattle.tt_io.specs.SureSource.{rest_of, most_of, given_of, history_of};

    ghost left = { λ s. Some (rest_of s) };

    ghost given = { λ s. given_of s };

    ghost gave = { λ s. history_of s };

    ghost faults = { λ _. 0 };

    fn read(&mut self, buf: &mut [u8]) -> ReadStep
        requires { 0 < length buf.old }
        ensures sure { result ≢ ReadStep.Failed }

        // The least of what is left, what one read gives, and what the buffer has room for.
        ensures size { IfGot result (λ n. (0 < n)
            × (n ≡ min (length (rest_of self.old)) (min (most_of self.old) (length buf.new)))) }
        ensures got { IfGot result (λ n. rest_of self.old ≡ take n buf.new ++ rest_of self.new) }
        ensures got_count { IfGot result (λ n. given_of self.new ≡ counted (given_of self.old) n) }
        ensures got_gave { IfGot result (λ n.
            Gives (history_of self.old) (history_of self.new) (take n buf.new)) }

        ensures end { OnEnd result ((rest_of self.old ≡ []) × (rest_of self.new ≡ [])
            × (given_of self.new ≡ given_of self.old)) }
        ensures end_gave { OnEnd result (
            GivesAll (history_of self.old) (history_of self.new) []) }

        ensures same { most_of self.new ≡ most_of self.old }
    {
        self.supply.give(buf)
    }
}

/// Keeps what is written, as far as it has room. A write fails exactly where its number is in
/// `failing` or no room is left.
#[derive(Drop)]
pub struct MemSink {
    bytes: Vec<u8>,
    room: usize,
    chunk: usize,
    failing: Vec<u64>,
    calls: u64,
    faults: u64,
    ghost takes: { 0 < chunk },
    ghost fits: { vec_len bytes ≤ room },
    ghost reserved: { room ≤ vec_capacity bytes },
}

impl MemSink {
    ghost use Rattle.tt_io.specs.MemSink.{written_in, room_of, chunk_in, write_calls, refusing, sink_faults};

    /// A sink that reserves room for `room` bytes and takes at most `chunk` of them at a time.
    /// Writes are numbered from 0.
    pub fn new(
        alloc: Global,
        room: usize,
        chunk: usize,
        failing: Vec<u64>,
    ) -> Result<MemSink, Memory>
        requires { 0 < chunk }
        ensures written { IfOk result (λ s. written_in s ≡ []) }
        ensures room { IfOk result (λ s. room_of s ≡ room) }
        ensures chunk { IfOk result (λ s. chunk_in s ≡ chunk) }
        ensures failing { IfOk result (λ s. refusing s ≡ failing.items) }
        ensures counts { IfOk result (λ s. (write_calls s ≡ 0) × (sink_faults s ≡ 0)) }
    {
        let Ok(bytes) = Vec::with_capacity(alloc, room) else {
            return Err(Memory);
        };
        Ok(MemSink {
            bytes,
            room,
            chunk,
            failing,
            calls: 0,
            faults: 0,
        })
    }

    /// What was written.
    pub fn as_bytes(&self) -> &[u8]
        ensures { result.now ≡ written_in self.now }
    {
        &self.bytes
    }
}

impl Sink for MemSink {
    ghost use Rattle.tt_io.specs.MemSink.{written_in, room_of, chunk_in, write_calls, refusing, sink_faults};

    ghost written = { λ s. Some (written_in s) };

    ghost faults = { λ s. sink_faults s };

    fn write(&mut self, piece: &[u8]) -> WriteStep
        requires { 0 < length piece.now }

        // The least of what the piece has, what one write takes, and what there is room for.
        ensures size { IfTook result (λ n. (0 < n) × (n ≡ min (length piece.now)
            (min (chunk_in self.old) (room_of self.old - length (written_in self.old))))) }
        ensures took { IfTook result (λ n.
            written_in self.new ≡ written_in self.old ++ take n piece.now) }

        ensures refused { OnRefused result (written_in self.new ≡ written_in self.old) }

        // A write fails exactly where its number is in `failing` or no room is left; each failure
        // is counted.
        ensures fails { (result ≡ WriteStep.Failed)
            ↔ (Contains (refusing self.old) (write_calls self.old)
            ⊎ (length (written_in self.old) ≡ room_of self.old)) }
        ensures fault { OnRefused result (sink_faults self.new ≡ counted (sink_faults self.old) 1) }
        ensures no_fault { result ≢ WriteStep.Failed
            → sink_faults self.new ≡ sink_faults self.old }
        ensures cause { OnRefused result (Rose (sink_faults self.old) (sink_faults self.new)) }
        ensures never_falls { sink_faults self.old ≤ sink_faults self.new }

        ensures call { write_calls self.new ≡ counted (write_calls self.old) 1 }
        ensures same { (refusing self.new ≡ refusing self.old)
            × (room_of self.new ≡ room_of self.old) × (chunk_in self.new ≡ chunk_in self.old) }
    {
        let call = self.calls;
        self.calls = count_more(call, 1);
        if self.failing.contains(&call) {
            self.faults = count_more(self.faults, 1);
            return WriteStep::Failed;
        }
        let room = self.room - self.bytes.len();
        if room == 0 {
            self.faults = count_more(self.faults, 1);
            return WriteStep::Failed;
        }
        let n = piece.len().min(self.chunk).min(room);
        // The room was reserved.
        if self.bytes.extend_from_slice(&piece[..n]).is_err() {
            unreachable!()
        }
        WriteStep::Took(n)
    }
}

/// Takes every piece whole, and does not say what was written.
#[derive(Clone, Copy, Default)]
pub struct NullSink;

impl NullSink {
    /// The sink.
    pub fn new() -> NullSink {
        NullSink
    }
}

impl Sink for NullSink {
    ghost written = { λ _. None };

    ghost faults = { λ _. 0 };

    fn write(&mut self, piece: &[u8]) -> WriteStep
        requires { 0 < length piece.now }
        ensures { result ≡ WriteStep.Took (length piece.now) }
    {
        WriteStep::Took(piece.len())
    }
}
