//! A command whose source or sink fails at each of its calls in turn.

ghost use Rattle.std.specs.Prelude.{◌≡◌, ◌<◌};

use osektime_core::{Status, Words, serve};
use std::alloc::Global;
use std::marker::Brand;
use std::process::Abort;
use std::test::Fail;
use tt_base::{Blank, Ledger, Steps};
use tt_io::{MemSink, MemSource};

const DOCUMENT: &[u8] = b"osektime 1
round 10
mode m
task A 8
work 3
end
at 0 m activate A 5 stringent
start m
rounds 1
";

const TRACE: &[u8] = b"0 os start m
0 round 1 m
0 activate A
0 run A
3 end A
3 run idle
5 check A met
10 stop
";

/// How many bytes the source gives in each piece, and the sink takes in each.
const CHUNK: usize = 16;

/// The command `trace` where the read and the write of these numbers fail, counted from 0.
fn check_trace<L: Ledger>(
    rt: &impl Abort,
    alloc: Global,
    (read, write): (u64, u64),
    (status, written): (Status, usize),
    steps: &mut Steps<L>,
) -> Result<(), Fail> {
    let mut words = Words::new(alloc);
    words.push(b"trace")?;
    let mut source = MemSource::new(DOCUMENT.to_vec(alloc)?, CHUNK, [read].to_vec(alloc)?);
    let mut sink = MemSink::new(alloc, 1000, CHUNK, [write].to_vec(alloc)?)?;
    assert_eq!(rt; serve(alloc, &words, &mut source, &mut sink, steps), status);
    assert_eq!(rt; sink.as_bytes().len(), written);
    assert!(rt; TRACE.starts_with(sink.as_bytes()));
    Ok(())
}

/// The document is read in seven calls, the last of which finds its end, and the text is written in
/// six.
fn check_each_call<L: Ledger>(rt: &impl Abort, alloc: Global, blank: Blank) -> Result<(), Fail>
    requires name { blank.name ≡ L.name }
    requires parts { blank.parts ≡ L.parts }
    requires whole { 0 < blank.parts }
{
    let mut steps = Steps::<L>::new(blank);
    for read in 0..7 {
        check_trace(rt, alloc, (read, 99), (Status::ReadFault, 0), &mut steps)?;
    }
    for (write, written) in [(0, 0), (1, 16), (2, 32), (3, 48), (4, 64), (5, 80)] {
        check_trace(
            rt,
            alloc,
            (99, write),
            (Status::WriteFault, written),
            &mut steps,
        )?;
    }
    check_trace(rt, alloc, (7, 6), (Status::Done, TRACE.len()), &mut steps)
}

#[test]
fn each_failing_call_has_its_status(rt: HostRuntime) -> Result<(), Fail> {
    check_each_call::<Brand>(&rt, rt.alloc(), Blank::new(1))
}
