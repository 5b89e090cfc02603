//! Lines on their way to a sink.

ghost use Rattle.std.specs.Io.KnownBytes.{Appends};
ghost use Rattle.std.specs.Prelude.{◌≡◌, ◌+◌, ◌≤◌, [], ◌∷◌, ◌++◌, length, take, decimal, OnOk, OnErr};
ghost use Rattle.tt_base.specs.Names.{name_of};
ghost use Rattle.tt_io.specs.Count.{Rose};
ghost use Rattle.tt_io.specs.Known.{AppendsPart};
ghost use Rattle.trace_text.specs.Lines.{correction, owner_name};

use crate::stamp::Stamp;
use itoa::{Buffer, Integer};
use std::marker::Model;
use tt_base::{Declared, NAME_BYTES, Names, Owner};
use tt_io::{CAPACITY, Sink, WriteFault, put_all};

/// Bytes that wait for a sink, and to which printed lines are appended word by word. It takes no
/// memory, and contracts see it as the list of the bytes that wait.
#[derive(Drop)]
pub(crate) struct LineBuffer {
    /// How many bytes wait, at the front of `bytes`.
    len: usize,
    bytes: [u8; CAPACITY],
}

impl Model for LineBuffer {
    ghost use Rattle.std.specs.Prelude.{List, ℕ, ◌≤◌, take};

    ghost Value = { List ℕ };

    ghost view = { λ b. take b.len b.bytes };

    ghost invariant = { λ b. b.len ≤ 8192 };
}

impl LineBuffer {
    /// A buffer in which nothing waits.
    pub(crate) fn new() -> LineBuffer
        ensures { result ≡ [] }
    {
        LineBuffer {
            len: 0,
            bytes: [0; CAPACITY],
        }
    }

    /// How many more bytes it has room for.
    #[inline(always)]
    pub(crate) fn room(&self) -> usize
        ensures { result + length self.now ≡ CAPACITY }
    {
        CAPACITY - self.len
    }

    /// The bytes that wait.
    pub(crate) fn as_bytes(&self) -> &[u8]
        ensures { result.now ≡ self.now }
    {
        &self.bytes[..self.len]
    }

    /// Appends what waits to the sink. Then nothing waits, also after a fault.
    #[inline(never)]
    pub(crate) fn send<O: Sink>(&mut self, sink: &mut O) -> Result<(), WriteFault>
        ensures ok { OnOk result (Appends (O.written sink.old) (O.written sink.new) self.old) }
        ensures part { OnErr result (
            AppendsPart (O.written sink.old) (O.written sink.new) self.old) }
        ensures cause { OnErr result (Rose (O.faults sink.old) (O.faults sink.new)) }
        ensures none_waits { self.new ≡ [] }
        ensures never_falls { O.faults sink.old ≤ O.faults sink.new }
    {
        let sent = put_all(sink, &self.bytes[..self.len]);
        self.len = 0;
        sent
    }

    /// Appends bytes.
    #[inline(always)]
    pub(crate) fn text(&mut self, text: &[u8])
        requires { length self.old + length text.now ≤ CAPACITY }
        ensures { self.new ≡ self.old ++ text.now }
    {
        let end = self.len + text.len();
        self.bytes[self.len..end].copy_from_slice(text);
        self.len = end;
    }

    /// Appends the first bytes of a name that has zeros after it. Sixteen bytes are copied at once,
    /// and those after the name are overwritten by what comes next.
    #[inline(always)]
    fn front_of_name(&mut self, text: &[u8; NAME_BYTES], len: usize)
        requires short { len ≤ NAME_BYTES }
        requires room { length self.old + NAME_BYTES ≤ CAPACITY }
        ensures { self.new ≡ self.old ++ take len text.now }
    {
        let end = self.len + NAME_BYTES;
        self.bytes[self.len..end].copy_from_slice(text.as_slice());
        self.len += len;
    }

    /// Appends the first bytes of the digits of a stamp, in the same way.
    #[inline(always)]
    fn front_of_stamp(&mut self, text: &[u8; 24], len: usize)
        requires short { len ≤ 24 }
        requires room { length self.old + 24 ≤ CAPACITY }
        ensures { self.new ≡ self.old ++ take len text.now }
    {
        let end = self.len + 24;
        self.bytes[self.len..end].copy_from_slice(text.as_slice());
        self.len += len;
    }

    /// The first word of a line: a stamp.
    #[inline(always)]
    pub(crate) fn stamp(&mut self, stamp: &Stamp)
        requires { length self.old + 24 ≤ CAPACITY }
        ensures text { self.new ≡ self.old ++ decimal stamp.now }
        ensures few { length self.new ≤ length self.old + 20 }
    {
        self.front_of_stamp(stamp.padded(), stamp.len());
    }

    /// One more word, with a space in front of it.
    #[inline(always)]
    pub(crate) fn word(&mut self, word: &[u8])
        requires { length self.old + 1 + length word.now ≤ CAPACITY }
        ensures text { self.new ≡ self.old ++ 32 ∷ word.now }
        ensures few { length self.new ≡ length self.old + 1 + length word.now }
    {
        self.text(b" ");
        self.text(word);
    }

    /// One more word: a number in decimal.
    pub(crate) fn number<I: Integer>(&mut self, number: I)
        requires { length self.old + 1 + I.MAX_STR_LEN ≤ CAPACITY }
        ensures text { self.new ≡ self.old ++ 32 ∷ I.text number }
        ensures few { length self.new ≤ length self.old + 1 + I.MAX_STR_LEN }
    {
        let mut buffer = Buffer::new();
        self.word(buffer.format(number).as_bytes());
    }

    /// One more word: a correction in ticks, with its sign.
    pub(crate) fn correction(&mut self, by: i64)
        requires { length self.old + 22 ≤ CAPACITY }
        ensures text { self.new ≡ self.old ++ 32 ∷ correction by }
        ensures few { length self.new ≤ length self.old + 22 }
    {
        self.text(b" ");
        if by >= 0 {
            self.text(b"+");
        }
        let mut buffer = Buffer::new();
        self.text(buffer.format(by).as_bytes());
    }

    /// One more word: the name of a declared thing, an empty word where it has none.
    #[inline(always)]
    pub(crate) fn name(&mut self, names: &Names, which: Declared)
        requires { length self.old + 17 ≤ CAPACITY }
        ensures text { self.new ≡ self.old ++ 32 ∷ name_of names.now which }
        ensures few { length self.new ≤ length self.old + 17 }
    {
        self.text(b" ");
        match names.get(which) {
            Some(name) => self.front_of_name(name.padded(), name.len()),
            None => {}
        }
    }

    /// One more word: the name of an owner.
    #[inline(always)]
    pub(crate) fn owner(&mut self, names: &Names, owner: Owner)
        requires { length self.old + 17 ≤ CAPACITY }
        ensures text { self.new ≡ self.old ++ 32 ∷ owner_name names.now owner }
        ensures few { length self.new ≤ length self.old + 17 }
    {
        match owner {
            Owner::Task(task) => self.name(names, Declared::Task(task)),
            Owner::Isr(isr) => self.name(names, Declared::Isr(isr)),
            Owner::Osek(task) => self.name(names, Declared::Osek(task)),
            Owner::Oisr(isr) => self.name(names, Declared::Oisr(isr)),
            Owner::ErrorHook => self.word(b"ttErrorHook"),
            Owner::ShutdownHook => self.word(b"ttShutdownHook"),
            Owner::Idle => self.word(b"idle"),
        }
    }

    /// The LF at the end of a line.
    #[inline(always)]
    pub(crate) fn end(&mut self)
        requires { length self.old + 1 ≤ CAPACITY }
        ensures { self.new ≡ self.old ++ 10 ∷ [] }
    {
        self.text(b"\n");
    }
}
