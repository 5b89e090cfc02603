//! Writing the text of an answer.

ghost use Rattle.std.specs.Io.KnownBytes.{Appends};
ghost use Rattle.std.specs.Prelude.{◌≡◌, ◌≢◌, ◌≤◌, OnOk, OnErr};
ghost use Rattle.tt_io.specs.Count.{Rose};
ghost use Rattle.tt_io.specs.Known.{AppendsPart};
ghost use Rattle.tt_base.specs.declared.number.TaskNo.{TaskNo};
ghost use Rattle.tt_world.specs.Status.{status_by};
ghost use Rattle.osektime_core.specs.Answer.{Responds, run_status};
ghost use Rattle.osektime_core.specs.NoMiss.{NoneIsMissed};

use crate::Status;
use tt_base::Tick;
use tt_io::{Sink, WriteFault, put_all};
use tt_world::RunEnd;

/// The status of a text that was to be written.
fn status_after(written: Result<(), WriteFault>, status: Status) -> Status
    ensures ok { OnOk written (result ≡ status) }
    ensures err { OnErr written (result ≡ Status.WriteFault) }
{
    match written {
        Ok(()) => status,
        Err(_) => Status::WriteFault,
    }
}

/// Writes the text of an answer of this status.
pub(crate) fn put_text<O: Sink>(text: &[u8], status: Status, output: &mut O) -> Status
    requires ample { status ≢ Status.Memory }
    requires written { status ≢ Status.WriteFault }
    ensures { Responds (record { text = text.now; status = status }) result
        (output.new ≡ output.old)
        (O.written output.old) (O.written output.new) (O.faults output.old) (O.faults output.new) }
{
    status_after(put_all(output, text), status)
}

/// The status of a run that has ended at a tick.
pub(crate) fn run_status(end: RunEnd, tick: Tick) -> Status
    ensures value { result ≡ run_status (status_by end tick) }
    ensures only { ((task : TaskNo) → end ≢ RunEnd.Missed task) → NoneIsMissed result }
{
    match end {
        RunEnd::LastRound => Status::Done,
        RunEnd::Missed(task) => Status::Missed { task, tick },
        RunEnd::Shutdown => Status::Shut { tick },
    }
}
