//! What no clause says: that memory is there, that a reader and a writer are used, and that their
//! faults are reported.

use std::alloc::Global;
use std::io;
use std::io::{ErrorKind, Read, Write};
use std::test::Fail;
use tt_io::{
    Buffer, MemSink, MemSource, NullSink, ReadStep, Sink, Source, StdSink, StdSource, SureSource,
    TakeFault, WriteFault, WriteStep, put_all, take_all,
};

const TEXT: &[u8] = b"0 os start m\n0 round 1 m\n";

/// Whether the text is taken, by chunks of this size, where the read of this number fails.
fn takes_text(alloc: Global, chunk: usize, failing: u64, limit: usize) -> Result<bool, TakeFault> {
    let Ok(bytes) = TEXT.to_vec(alloc) else {
        return Err(TakeFault::Memory);
    };
    let Ok(failing) = [failing].to_vec(alloc) else {
        return Err(TakeFault::Memory);
    };
    let mut source = MemSource::new(bytes, chunk.max(1), failing);
    let taken = take_all(alloc, &mut source, limit.min(100))?;
    Ok(taken.as_slice() == TEXT)
}

#[test]
fn takes_all_up_to_a_limit(rt: HostRuntime) {
    for (chunk, failing, limit, answer) in [
        (1, 99, 25, Ok(true)),
        (16, 99, 100, Ok(true)),
        (7, 99, 24, Err(TakeFault::TooLong)),
        (7, 2, 25, Err(TakeFault::ReadFault)),
    ] {
        assert_eq!(rt; takes_text(rt.alloc(), chunk, failing, limit), answer);
    }
}

#[test]
fn a_sure_source_ends(rt: HostRuntime) -> Result<(), Fail> {
    let mut source = SureSource::new(TEXT.to_vec(rt.alloc())?, 10);
    assert_eq!(rt; take_all(rt.alloc(), &mut source, 25)?.len(), 25);
    assert_eq!(rt; source.read(&mut [0; 4]), ReadStep::End);
    Ok(())
}

#[test]
fn keeps_what_has_room(rt: HostRuntime) -> Result<(), Fail> {
    let alloc = rt.alloc();
    let mut sink = MemSink::new(alloc, 10, 8, [1].to_vec(alloc)?)?;
    let failed = WriteStep::Failed;
    for step in [WriteStep::Took(8), failed, WriteStep::Took(2), failed] {
        assert_eq!(rt; sink.write(TEXT), step);
    }
    assert_eq!(rt; sink.as_bytes(), b"0 os sta0 ".as_slice());
    assert_eq!(rt; NullSink::new().write(TEXT), WriteStep::Took(25));
    Ok(())
}

#[test]
fn puts_by_way_of_a_buffer(rt: HostRuntime) -> Result<(), Fail> {
    let mut sink = MemSink::new(rt.alloc(), 100, 8, [1].to_vec(rt.alloc())?)?;
    let mut buffer = Buffer::new();
    buffer.put(&mut sink, TEXT)?;
    assert!(rt; sink.as_bytes().is_empty());
    assert_eq!(rt; buffer.send(&mut sink), Err(WriteFault));
    buffer.put(&mut sink, b"1 stop\n")?;
    buffer.send(&mut sink)?;
    assert_eq!(rt; sink.as_bytes(), b"0 os sta1 stop\n".as_slice());
    Ok(())
}

/// Gives four bytes at each read, but for its third, which fails.
#[derive(Drop)]
struct Faltering {
    reads: u32,
}

impl Read for Faltering {
    fn read(&mut self, buf: &mut [u8]) -> io::Result<usize> {
        self.reads = self.reads.saturating_add(1);
        if self.reads == 3 {
            return Err(io::Error::from(ErrorKind::Interrupted));
        }
        Ok(buf.len().min(4))
    }
}

#[test]
fn reads_from_a_reader(rt: HostRuntime) -> Result<(), Fail> {
    let alloc = rt.alloc();
    let mut source = StdSource::new(TEXT);
    assert_eq!(rt; take_all(alloc, &mut source, 25)?.as_slice(), TEXT);
    let mut source = StdSource::new(Faltering { reads: 0 });
    let got = ReadStep::Got(4);
    for step in [got, got, ReadStep::Failed, got] {
        assert_eq!(rt; source.read(&mut [0; 8]), step);
    }
    Ok(())
}

/// Gives four bytes at each read, but for its second, which finds an end, as a terminal may.
#[derive(Drop)]
struct Pausing {
    reads: u32,
}

impl Read for Pausing {
    fn read(&mut self, buf: &mut [u8]) -> io::Result<usize> {
        self.reads = self.reads.saturating_add(1);
        if self.reads == 2 {
            return Ok(0);
        }
        Ok(buf.len().min(4))
    }
}

#[test]
fn reads_up_to_the_first_end(rt: HostRuntime) -> Result<(), Fail> {
    let mut source = StdSource::new(Pausing { reads: 0 });
    assert_eq!(rt; take_all(rt.alloc(), &mut source, 25)?.len(), 4);
    assert_eq!(rt; source.read(&mut [0; 8]), ReadStep::Got(4));
    Ok(())
}

/// How the second write of a writer goes wrong.
#[derive(Clone, Copy)]
enum Wrong {
    Error,
    Nothing,
    Flush,
}

/// Takes four bytes at each write, but for its second, which goes wrong.
#[derive(Drop)]
struct Stumbling {
    writes: u32,
    wrong: Wrong,
}

impl Write for Stumbling {
    fn write(&mut self, buf: &[u8]) -> io::Result<usize> {
        self.writes = self.writes.saturating_add(1);
        match self.wrong {
            Wrong::Error if self.writes == 2 => Err(io::Error::from(ErrorKind::BrokenPipe)),
            Wrong::Nothing if self.writes == 2 => Ok(0),
            _ => Ok(buf.len().min(4)),
        }
    }

    fn flush(&mut self) -> io::Result<()> {
        if self.writes == 2 && matches!(self.wrong, Wrong::Flush) {
            return Err(io::Error::from(ErrorKind::BrokenPipe));
        }
        Ok(())
    }
}

#[test]
fn writes_to_a_writer(rt: HostRuntime) -> Result<(), Fail> {
    let mut bytes = Vec::new(rt.alloc());
    put_all(&mut StdSink::new(&mut bytes), TEXT)?;
    assert_eq!(rt; bytes.as_slice(), TEXT);
    for wrong in [Wrong::Error, Wrong::Nothing, Wrong::Flush] {
        let mut sink = StdSink::new(Stumbling { writes: 0, wrong });
        let took = WriteStep::Took(4);
        for step in [took, WriteStep::Failed, took] {
            assert_eq!(rt; sink.write(TEXT), step);
        }
    }
    Ok(())
}
