//! How a command ends.

ghost use Rattle.std.specs.Prelude.{◌≡◌};
ghost use Rattle.osektime_core.specs.Status.{code_of};

use tt_base::{ModeNo, TaskNo, Tick};
use tt_read::FormKind;

/// How a command ends. The program's exit status is its code.
#[derive(Clone, Copy, Debug, PartialEq, Eq)]
pub enum Status {
    /// 0: the command's text is written; a run has ended with its last round; the schedule check
    /// says yes.
    Done,
    /// 1: out of memory. Nothing was written.
    Memory,
    /// 2: the words are no command. Nothing was read or written.
    Usage,
    /// 3: a read failed. Nothing was written.
    ReadFault,
    /// 4: a write failed. What was written is a part of the text, from its beginning.
    WriteFault,
    /// 5: the document has more than 2^20 bytes. Nothing was written.
    TooLong,
    /// 6: a line of the document is faulty: the first such line, and its least fault.
    Form { line: u32, kind: FormKind },
    /// 7: the document breaks a rule: the least rule that is broken, and the least line that
    /// breaks it.
    Rule { number: u8, line: u32 },
    /// 8: the schedule check says no: the first mode with an activation that has no response end,
    /// and in it the entry number of the first. The check's text is written.
    CheckNo { mode: ModeNo, entry: usize },
    /// 9: the run has ended with a missed deadline: the task, and the tick of its missed check.
    /// The run's text is written.
    Missed { task: TaskNo, tick: Tick },
    /// 10: ttShutdownOS has ended the run, at this tick. The run's text is written.
    Shut { tick: Tick },
}

impl Status {
    /// The exit status.
    pub fn code(&self) -> u8
        ensures { result ≡ code_of self.now }
    {
        match self {
            Status::Done => 0,
            Status::Memory => 1,
            Status::Usage => 2,
            Status::ReadFault => 3,
            Status::WriteFault => 4,
            Status::TooLong => 5,
            Status::Form { line: _, kind: _ } => 6,
            Status::Rule { number: _, line: _ } => 7,
            Status::CheckNo { mode: _, entry: _ } => 8,
            Status::Missed { task: _, tick: _ } => 9,
            Status::Shut { tick: _ } => 10,
        }
    }
}
