//! The top call.

ghost use Rattle.std.specs.Prelude.{◌≡◌, ◌≢◌, ◌↔◌, ◌≤◌, ◌+◌, ◌^◌, ℕ, List, Some, None, [], IfSome};
ghost use Rattle.tt_io.specs.Count.{Rose, counted};
ghost use Rattle.tt_io.specs.Gave.{GivesAll};
ghost use Rattle.tt_io.specs.Known.{AppendsPart, HadMore};
ghost use Rattle.osektime_core.specs.Words.{command_of};
ghost use Rattle.osektime_core.specs.Answer.{answer_of, document_for, IsAnswered, IsReading, OnAnswered};
ghost use Rattle.osektime_core.specs.Heard.{Heard, HeardPart};
ghost use Rattle.osektime_core.specs.InBounds.{IsLoading, OnRun, TellsInBounds};
ghost use Rattle.osektime_core.specs.Moves.{CountsMoves, IsRunning, run_of};
ghost use Rattle.osektime_core.specs.NoMiss.{IsSchedulable, NoneIsMissed};

use crate::document::respond;
use crate::{Command, Status, Words, bulk_document};
use std::alloc::Global;
use tt_base::{Ledger, Steps};
use tt_io::{Sink, Source, TakeFault, take_all};

/// How many bytes a document has at most.
pub const MOST_BYTES: usize = 1 << 20;

/// Answers a command: reads its input to the end, and writes the text of the answer; `bulk` reads
/// nothing, and has a document of its own. The order of refusals is: words that are no command; out
/// of memory; a failed read, or a byte too many, as reading meets them; the first faulty line; for
/// all but `show` the least rule that is broken. Out of memory may stand in place of any answer
/// before the first byte is written, and a failed write in place of the answer whose text was being
/// written. A run that has ended with a missed deadline is no refusal: its whole text is written.
/// A step is counted for each move of the run, that is, for the ticks that the one who runs takes
/// at once. Commands and statuses are the bench's own.
pub fn serve<I: Source, O: Sink, L: Ledger>(
    alloc: Global,
    words: &Words,
    input: &mut I,
    output: &mut O,
    steps: &mut Steps<L>,
) -> Status
    // Where no count of faults rose, it is the answer to the bytes that were left or to those of
    // the bulk document, or it is out of memory.
    ensures complete { ¬ Rose (I.faults input.old) (I.faults input.new)
        → ¬ Rose (O.faults output.old) (O.faults output.new)
        → result ≢ Status.Memory
        → IsAnswered words.now (I.left input.old) result (O.written output.old)
        (O.written output.new) }

    // Where one rose, an answer to a document is still that one, whole, and nothing of what a
    // command reads is left.
    ensures answered { OnAnswered result
        (IsAnswered words.now (I.left input.old) result (O.written output.old)
        (O.written output.new)) }
    ensures taken { IsReading (command_of words.now) → OnAnswered result
        (IfSome (I.left input.old) (λ _. I.left input.new ≡ Some [])) }
    ensures not_read { ¬ IsReading (command_of words.now) → input.new ≡ input.old }

    // The same over a source that does not say what it has left, as standard input: the answer is
    // that to the bytes that the source gave, up to its first end and not after it.
    ensures heard { IsReading (command_of words.now)
        → ¬ Rose (I.faults input.old) (I.faults input.new)
        → ¬ Rose (O.faults output.old) (O.faults output.new)
        → result ≢ Status.Memory
        → Heard words.now result (I.gave input.old) (I.gave input.new) (O.written output.old)
        (O.written output.new) }
    ensures heard_answered { IsReading (command_of words.now) → OnAnswered result
        (Heard words.now result (I.gave input.old) (I.gave input.new) (O.written output.old)
        (O.written output.new)) }
    ensures heard_part { IsReading (command_of words.now) → result ≡ Status.WriteFault
        → HeardPart words.now (I.gave input.old) (I.gave input.new) (O.written output.old)
        (O.written output.new) }

    ensures memory { result ≡ Status.Memory → output.new ≡ output.old }
    ensures usage { (result ≡ Status.Usage) ↔ (command_of words.now ≡ None) }
    ensures usage_untouched { result ≡ Status.Usage
        → (input.new ≡ input.old) × (output.new ≡ output.old) × (steps.new ≡ steps.old) }
    ensures read_fault { result ≡ Status.ReadFault → IsReading (command_of words.now)
        × Rose (I.faults input.old) (I.faults input.new) × (output.new ≡ output.old)
        × (steps.new ≡ steps.old) }
    ensures too_long { result ≡ Status.TooLong → IsReading (command_of words.now)
        × HadMore (I.left input.old) (2 ^ 20) × (output.new ≡ output.old)
        × (I.given input.new ≡ counted (I.given input.old) (2 ^ 20 + 1))
        × (steps.new ≡ steps.old) }
    ensures not_too_long { result ≢ Status.TooLong
        → I.given input.new ≤ I.given input.old + 2 ^ 20 }
    ensures write_fault { result ≡ Status.WriteFault
        → Rose (O.faults output.old) (O.faults output.new)
        × IfSome (document_for words.now (I.left input.old))
        (λ bytes. AppendsPart (O.written output.old) (O.written output.new)
        (answer_of words.now bytes).text) }

    // The deadlines of a document that meets the rules, whose check says yes and whose script
    // keeps its declared bounds are met.
    ensures no_miss { IfSome (document_for words.now (I.left input.old))
        (λ bytes. IsSchedulable bytes → NoneIsMissed result) }

    // The depth and the words that `load` and `bulk` write of a run are at most the bounds beside
    // them, whatever the check of the document says and whether its script keeps its bounds.
    ensures bounded { IsLoading (command_of words.now) → OnRun result
        (TellsInBounds (O.written output.old) (O.written output.new)) }

    // The moves of a run are at most the statements that are begun, plus the instants at which
    // something is due, plus one; and where it has ended, at least the changes of the owner.
    // Nothing is counted where nothing is run.
    ensures moves { IfSome (document_for words.now (I.left input.old))
        (λ bytes. CountsMoves (run_of words.now bytes) result steps.old steps.new) }
    ensures heard_moves { IsReading (command_of words.now) → (bytes : List ℕ)
        → GivesAll (I.gave input.old) (I.gave input.new) bytes
        → CountsMoves (run_of words.now bytes) result steps.old steps.new }
    ensures no_moves { ¬ IsRunning (command_of words.now) → steps.new ≡ steps.old }

    ensures never_falls { (I.faults input.old ≤ I.faults input.new)
        × (O.faults output.old ≤ O.faults output.new) }
{
    let Some(command) = words.command() else {
        return Status::Usage;
    };
    if let Command::Bulk(number) = command {
        let Ok(bytes) = bulk_document(alloc, number) else {
            return Status::Memory;
        };
        return respond(alloc, command, bytes, output, steps);
    }
    let bytes = match take_all(alloc, input, MOST_BYTES) {
        Ok(bytes) => bytes,
        Err(TakeFault::Memory) => return Status::Memory,
        Err(TakeFault::ReadFault) => return Status::ReadFault,
        Err(TakeFault::TooLong) => return Status::TooLong,
    };
    respond(alloc, command, bytes, output, steps)
}
