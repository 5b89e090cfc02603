//! A buffer in front of a sink.

ghost use Rattle.std.specs.Io.KnownBytes.{Appends};
ghost use Rattle.std.specs.Prelude.{◌≡◌, ◌<◌, ◌≤◌, ◌+◌, ◌++◌, [], length, OnOk, OnErr, IsOk};
ghost use Rattle.tt_io.specs.Count.{Rose};
ghost use Rattle.tt_io.specs.Known.{AppendsPart};
ghost use Rattle.tt_io.specs.Passes.{Passes};

use crate::{Sink, WriteFault, put_all};
use std::marker::Model;

/// How many bytes a buffer holds at most: as many as std's own buffered writer. With eight times as
/// many, ten million short lines are written to a file a third faster, but each buffer takes eight
/// times the room on the stack.
pub const CAPACITY: usize = 8 * 1024;

/// Bytes on their way to a sink, collected so that many small pieces make one write. A buffer is
/// apart from its sink and takes no memory. Contracts see it as the list of the bytes that wait.
#[derive(Drop)]
pub struct Buffer {
    bytes: [u8; CAPACITY],
    /// How many bytes wait: these are the first ones of `bytes`.
    len: usize,
}

impl Model for Buffer {
    ghost use Rattle.std.specs.Prelude.{List, ℕ, ◌≤◌, take};

    ghost Value = { List ℕ };

    ghost view = { λ b. take b.len b.bytes };

    ghost invariant = { λ b. b.len ≤ 8192 };
}

impl Default for Buffer {
    ghost is_default = { λ b. b ≡ [] };

    fn default() -> Buffer {
        Buffer::new()
    }
}

impl Buffer {
    /// A buffer in which nothing waits.
    pub fn new() -> Buffer
        ensures { result ≡ [] }
    {
        Buffer {
            bytes: [0; CAPACITY],
            len: 0,
        }
    }

    /// For how many more bytes there is room.
    #[inline(always)]
    fn room(&self) -> usize
        ensures { result + length self.now ≡ CAPACITY }
    {
        CAPACITY - self.len
    }

    /// Appends a piece for which there is room.
    #[inline(always)]
    fn hold(&mut self, piece: &[u8])
        requires { length self.old + length piece.now ≤ CAPACITY }
        ensures { self.new ≡ self.old ++ piece.now }
    {
        let end = self.len + piece.len();
        self.bytes[self.len..end].copy_from_slice(piece);
        self.len = end;
    }

    /// Appends a piece. It waits if there is room for it; otherwise what waits is sent first. A
    /// piece that is larger than the buffer goes to the sink at once. After a fault nothing waits.
    #[inline(always)]
    pub fn put<O: Sink>(&mut self, sink: &mut O, piece: &[u8]) -> Result<(), WriteFault>
        ensures ok { OnOk result (Passes (O.written sink.old) (O.written sink.new)
            (self.old ++ piece.now) self.new) }
        ensures waits { length (self.old ++ piece.now) ≤ CAPACITY → IsOk result
            × (self.new ≡ self.old ++ piece.now) × (sink.new ≡ sink.old) }
        ensures larger { CAPACITY < length piece.now → self.new ≡ [] }

        ensures part { OnErr result (AppendsPart (O.written sink.old) (O.written sink.new)
            (self.old ++ piece.now)) }
        ensures none_waits { OnErr result (self.new ≡ []) }
        ensures cause { OnErr result (Rose (O.faults sink.old) (O.faults sink.new)) }

        ensures never_falls { O.faults sink.old ≤ O.faults sink.new }
    {
        if piece.len() <= self.room() {
            self.hold(piece);
            return Ok(());
        }
        self.put_beyond(sink, piece)
    }

    /// Appends a piece for which there is no room after what waits.
    #[inline(never)]
    fn put_beyond<O: Sink>(&mut self, sink: &mut O, piece: &[u8]) -> Result<(), WriteFault>
        ensures ok { OnOk result (Passes (O.written sink.old) (O.written sink.new)
            (self.old ++ piece.now) self.new) }
        ensures larger { CAPACITY < length piece.now → self.new ≡ [] }

        ensures part { OnErr result (AppendsPart (O.written sink.old) (O.written sink.new)
            (self.old ++ piece.now)) }
        ensures none_waits { OnErr result (self.new ≡ []) }
        ensures cause { OnErr result (Rose (O.faults sink.old) (O.faults sink.new)) }

        ensures never_falls { O.faults sink.old ≤ O.faults sink.new }
    {
        self.send(sink)?;
        if piece.len() <= CAPACITY {
            self.hold(piece);
            return Ok(());
        }
        put_all(sink, piece)
    }

    /// Appends what waits to the sink. Then nothing waits, also after a fault.
    pub fn send<O: Sink>(&mut self, sink: &mut O) -> Result<(), WriteFault>
        ensures ok { OnOk result (Appends (O.written sink.old) (O.written sink.new) self.old) }
        ensures empty { self.old ≡ [] → sink.new ≡ sink.old }

        ensures part { OnErr result (
            AppendsPart (O.written sink.old) (O.written sink.new) self.old) }
        ensures cause { OnErr result (Rose (O.faults sink.old) (O.faults sink.new)) }

        ensures none_waits { self.new ≡ [] }
        ensures never_falls { O.faults sink.old ≤ O.faults sink.new }
    {
        let sent = put_all(sink, &self.bytes[..self.len]);
        self.len = 0;
        sent
    }
}
