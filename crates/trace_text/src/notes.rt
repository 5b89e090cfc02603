//! Notes of several events.

ghost use Rattle.std.specs.Prelude.{◌∷◌, [], IsTrue};
ghost use Rattle.trace_text.specs.Records.{Records};

use crate::{Failed, Noted, Recorder};
use tt_base::{Event, Names};

/// Notes one event.
pub fn note_one<R: Recorder>(recorder: &mut R, event: &Event, names: &Names) -> Result<(), Failed>
    requires { IsTrue (R.ready recorder.old) }
    ensures { Records R.Recorder names.now recorder.old (event.now ∷ []) recorder.new result }
{
    match recorder.note(event, names) {
        Noted::Kept => Ok(()),
        Noted::Failed => Err(Failed),
    }
}

/// Notes events in their order, up to the first that fails.
pub fn note_all<R: Recorder>(
    recorder: &mut R,
    events: &[Event],
    names: &Names,
) -> Result<(), Failed>
    requires { IsTrue (R.ready recorder.old) }
    ensures { Records R.Recorder names.now recorder.old events.now recorder.new result }
{
    for event in events {
        match note_one(recorder, event, names) {
            Ok(()) => {}
            Err(failed) => return Err(failed),
        }
    }
    Ok(())
}
