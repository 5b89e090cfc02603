//! Whole reading and whole writing.

ghost use Rattle.std.specs.Io.KnownBytes.{Appends, Consumes, IsAtEnd};
ghost use Rattle.std.specs.Prelude.{◌≡◌, ◌<◌, ◌≤◌, ◌+◌, ◌^◌, ℕ, [], length, take, OnOk, OnErr, IfOk};
ghost use Rattle.tt_io.specs.Count.{Rose, counted};
ghost use Rattle.tt_io.specs.Filled.{IfEnded, OnBroken, OnWhole};
ghost use Rattle.tt_io.specs.Gave.{Gives, GivesAll, GivesCount};
ghost use Rattle.tt_io.specs.Known.{AppendsPart, HadMore, TakesFirst, WasAll};
ghost use Rattle.tt_io.specs.TakeFault.{OnMemory, OnReadFault, OnTooLong};

use crate::{ReadStep, Sink, Source, WriteStep};
use std::alloc::Global;
use thiserror::Error;

/// Why a source was not read to its end.
#[derive(Clone, Copy, Debug, PartialEq, Eq, Error)]
pub enum TakeFault {
    /// Out of memory. Nothing was read.
    #[error("out of memory")]
    Memory,
    /// A read failed.
    #[error("a read failed")]
    ReadFault,
    /// More bytes than the limit were left.
    #[error("more bytes than the limit")]
    TooLong,
}

/// A write failed.
#[derive(Clone, Copy, Debug, PartialEq, Eq)]
pub struct WriteFault;

/// All the bytes that a source has left. They may be at most `limit`, and `limit` is at most 2^24.
/// The buffer is reserved before the first read. At most `limit + 1` bytes are taken: the one past
/// the limit shows that there are too many.
pub fn take_all<I: Source>(
    alloc: Global,
    source: &mut I,
    limit: usize,
) -> Result<Vec<u8>, TakeFault>
    requires { limit ≤ 2 ^ 24 }

    ensures bytes { IfOk result (λ bytes.
        WasAll (I.left source.old) (I.left source.new) bytes.items) }
    ensures fits { IfOk result (λ bytes. length bytes.items ≤ limit) }
    ensures count { IfOk result (λ bytes.
        I.given source.new ≡ counted (I.given source.old) (length bytes.items)) }

    // It reads up to the first end, and not after it.
    ensures gave { IfOk result (λ bytes.
        GivesAll (I.gave source.old) (I.gave source.new) bytes.items) }

    ensures memory { OnMemory result (source.new ≡ source.old) }

    // Before the fault at most `limit` bytes were taken.
    ensures read_fault { OnReadFault result (Rose (I.faults source.old) (I.faults source.new)) }
    ensures read_fault_taken { OnReadFault result ((n : ℕ) × (n ≤ limit)
        × TakesFirst (I.left source.old) (I.left source.new) n
        × (I.given source.new ≡ counted (I.given source.old) n)) }
    ensures read_fault_gave { OnReadFault result ((n : ℕ) × (n ≤ limit)
        × GivesCount (I.gave source.old) (I.gave source.new) n) }

    ensures too_long { OnTooLong result (HadMore (I.left source.old) limit) }
    ensures too_long_taken { OnTooLong result (
        TakesFirst (I.left source.old) (I.left source.new) (limit + 1)) }
    ensures too_long_count { OnTooLong result (
        I.given source.new ≡ counted (I.given source.old) (limit + 1)) }
    ensures too_long_gave { OnTooLong result (
        GivesCount (I.gave source.old) (I.gave source.new) (limit + 1)) }

    ensures at_most { I.given source.new ≤ I.given source.old + (limit + 1) }
    ensures never_falls { I.faults source.old ≤ I.faults source.new }
{
    let Ok(mut bytes) = vec![in alloc; 0u8; limit + 1] else {
        return Err(TakeFault::Memory);
    };
    match fill(source, &mut bytes) {
        Filled::Whole => Err(TakeFault::TooLong),
        Filled::Ended(taken) => {
            bytes.truncate(taken);
            Ok(bytes)
        }
        Filled::Broken => Err(TakeFault::ReadFault),
    }
}

/// How far a buffer was filled.
enum Filled {
    /// To its end.
    Whole,
    /// With this number of bytes, after which the source ended.
    Ended(usize),
    /// Up to a fault.
    Broken,
}

/// Reads until the buffer is full.
fn fill<I: Source>(source: &mut I, buf: &mut [u8]) -> Filled
    ensures whole { OnWhole result (Consumes (I.left source.old) (I.left source.new) buf.new) }
    ensures whole_count { OnWhole result (
        I.given source.new ≡ counted (I.given source.old) (length buf.new)) }
    ensures whole_gave { OnWhole result (Gives (I.gave source.old) (I.gave source.new) buf.new) }

    ensures ended { IfEnded result (λ n. (n < length buf.new)
        × Consumes (I.left source.old) (I.left source.new) (take n buf.new)
        × IsAtEnd (I.left source.new)) }
    ensures ended_count { IfEnded result (λ n.
        I.given source.new ≡ counted (I.given source.old) n) }
    ensures ended_gave { IfEnded result (λ n.
        GivesAll (I.gave source.old) (I.gave source.new) (take n buf.new)) }

    ensures broken { OnBroken result (Rose (I.faults source.old) (I.faults source.new)) }
    ensures broken_taken { OnBroken result ((n : ℕ) × (n < length buf.new)
        × TakesFirst (I.left source.old) (I.left source.new) n
        × (I.given source.new ≡ counted (I.given source.old) n)) }
    ensures broken_gave { OnBroken result ((n : ℕ) × (n < length buf.new)
        × GivesCount (I.gave source.old) (I.gave source.new) n) }

    ensures never_falls { I.faults source.old ≤ I.faults source.new }
{
    let mut taken = 0;
    while taken < buf.len() {
        match source.read(&mut buf[taken..]) {
            ReadStep::Got(n) => taken += n,
            ReadStep::End => return Filled::Ended(taken),
            ReadStep::Failed => return Filled::Broken,
        }
    }
    Filled::Whole
}

/// Appends a piece to a sink. An empty piece writes nothing. At a fault a proper prefix of the
/// piece was appended.
pub fn put_all<O: Sink>(sink: &mut O, piece: &[u8]) -> Result<(), WriteFault>
    ensures ok { OnOk result (Appends (O.written sink.old) (O.written sink.new) piece.now) }
    ensures empty { piece.now ≡ [] → sink.new ≡ sink.old }

    ensures part { OnErr result (AppendsPart (O.written sink.old) (O.written sink.new) piece.now) }
    ensures cause { OnErr result (Rose (O.faults sink.old) (O.faults sink.new)) }

    ensures never_falls { O.faults sink.old ≤ O.faults sink.new }
{
    let mut rest = piece;
    while !rest.is_empty() {
        match sink.write(rest) {
            WriteStep::Took(n) => rest = &rest[n..],
            WriteStep::Failed => return Err(WriteFault),
        }
    }
    Ok(())
}
