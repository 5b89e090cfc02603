//! Who notes the events of a run: a list, a sink, and one that keeps nothing.

use crate::event_lines::{A, BY_A, M, example};
use std::alloc::Global;
use std::test::Fail;
use trace_text::{Discard, Failed, ListRecorder, SinkRecorder, note_all, note_one};
use tt_base::{Event, Names, Owner};
use tt_io::{MemSink, WriteFault};

/// The run of one round with one task that takes three ticks and meets its deadline.
pub(crate) const RUN: [Event; 8] = [
    Event::OsStart { at: 0, mode: M },
    Event::Round {
        at: 0,
        number: 1,
        mode: M,
    },
    Event::Activate { at: 0, task: A },
    Event::Run { at: 0, who: BY_A },
    Event::End { at: 3, owner: BY_A },
    Event::Run {
        at: 3,
        who: Owner::Idle,
    },
    Event::Check {
        at: 5,
        task: A,
        met: true,
    },
    Event::Stop { at: 10 },
];

const TEXT: &[u8] = b"0 os start m
0 round 1 m
0 activate A
0 run A
3 end A
3 run idle
5 check A met
10 stop
";

/// Writes the lines of events to a sink, up to a fault.
pub(crate) fn write_events(
    sink: &mut MemSink,
    events: &[Event],
    names: &Names,
) -> Result<(), WriteFault> {
    let mut recorder = SinkRecorder::new(sink);
    match note_all(&mut recorder, events, names) {
        Ok(()) => recorder.finish(),
        Err(Failed) => Err(WriteFault),
    }
}

/// A sink with the text of events.
pub(crate) fn text_of(alloc: Global, events: &[Event], names: &Names) -> Result<MemSink, Fail> {
    let mut sink = MemSink::new(alloc, 1_000, 1_000, Vec::new(alloc))?;
    write_events(&mut sink, events, names)?;
    Ok(sink)
}

#[test]
fn a_list_keeps_what_has_room(rt: HostRuntime) -> Result<(), Fail> {
    let names = example(rt.alloc())?;
    for (room, answer) in [(8, Ok(())), (7, Err(Failed)), (0, Err(Failed))] {
        let mut list = ListRecorder::new(rt.alloc(), room)?;
        assert_eq!(rt; note_all(&mut list, &RUN, &names), answer);
        assert_eq!(rt; note_one(&mut list, &RUN[0], &names), Err(Failed));
        let noted = text_of(rt.alloc(), list.events(), &names)?;
        let first = text_of(rt.alloc(), &RUN[..room.min(8)], &names)?;
        assert_eq!(rt; noted.as_bytes(), first.as_bytes());
    }
    Ok(())
}

#[test]
fn a_sink_gets_the_text_in_chunks(rt: HostRuntime) -> Result<(), Fail> {
    let names = example(rt.alloc())?;
    assert_eq!(rt; note_all(&mut Discard::new(), &RUN, &names), Ok(()));
    for chunk in [1, 7, 8_192] {
        let mut sink = MemSink::new(rt.alloc(), 1_000, chunk, Vec::new(rt.alloc()))?;
        let mut recorder = SinkRecorder::new(&mut sink);
        assert_eq!(rt; note_all(&mut recorder, &RUN, &names), Ok(()));
        recorder.finish()?;
        assert_eq!(rt; sink.as_bytes(), TEXT);
    }
    Ok(())
}

/// 2,000 events, whose lines have ten bytes each.
fn stops(alloc: Global) -> Result<Vec<Event>, Fail> {
    let mut events = Vec::new(alloc);
    for at in 1_000..3_000 {
        events.push(Event::Stop { at })?;
    }
    Ok(events)
}

#[test]
fn a_failed_write_cuts_the_text(rt: HostRuntime) -> Result<(), Fail> {
    let alloc = rt.alloc();
    let names = example(alloc)?;
    let mut short = MemSink::new(alloc, 1_000, 8, [1].to_vec(alloc)?)?;
    assert_eq!(rt; write_events(&mut short, &RUN, &names), Err(WriteFault));
    assert_eq!(rt; short.as_bytes(), b"0 os sta".as_slice());
    let events = stops(alloc)?;
    let mut whole = MemSink::new(alloc, 30_000, 8_192, Vec::new(alloc))?;
    assert_eq!(rt; write_events(&mut whole, &events, &names), Ok(()));
    assert_eq!(rt; whole.as_bytes().len(), 20_000);
    // The text takes three writes: two when the buffer is full, and one at the end.
    for failing in 0..4 {
        let mut sink = MemSink::new(alloc, 30_000, 8_192, [failing].to_vec(alloc)?)?;
        let answer = write_events(&mut sink, &events, &names);
        assert_eq!(rt; answer, if failing < 3 { Err(WriteFault) } else { Ok(()) });
        assert!(rt; whole.as_bytes().starts_with(sink.as_bytes()));
        assert_eq!(rt; sink.as_bytes().len() == 20_000, failing == 3);
    }
    Ok(())
}
