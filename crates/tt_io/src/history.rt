//! What went through a source or a sink, for proofs alone.
//!
//! Anyone can make a history, so a clause about one says nothing of who made it. It says what code
//! did with a source or a sink of any type that was handed to it: such code can change the history
//! only by reads and writes.

ghost use Rattle.std.specs.Borrow.{ftrue};
ghost use Rattle.std.specs.Coded.{coded_ℕ, coded_list};
ghost use Rattle.std.specs.Prelude.{◌≡◌, ◌++◌, ◌∷◌, ℕ, List, Option, Some, None, [], map};

use std::marker::Model;

/// The bytes that went through so far, and each end that was met. It has no size, and its methods
/// do nothing when the program runs.
#[derive(Drop)]
pub struct History {
    /// A byte is `Some` of it, and an end is `None`.
    pub ghost items: { List (Option ℕ) },
}

impl Model for History {
    ghost also_owns = { λ _. ftrue };
}

impl History {
    /// Nothing went through.
    pub fn new() -> History
        ensures { result.items ≡ [] }
    {
        History {}
    }

    /// The history after the bytes of a piece.
    pub fn with_piece(&self, piece: &[u8]) -> History
        ensures { result.items ≡ self.now.items ++ map Some piece.now }
    {
        History {}
    }

    /// The history after an end.
    pub fn with_end(&self) -> History
        ensures { result.items ≡ self.now.items ++ None ∷ [] }
    {
        History {}
    }
}
