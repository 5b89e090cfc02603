//! What a source and a sink of bytes are.

ghost use Rattle.std.specs.Io.KnownBytes.{Appends, Consumes, IsAtEnd, Keeps};
ghost use Rattle.std.specs.Prelude.{◌≡◌, ◌<◌, ◌≤◌, ℕ, List, [], Option, length, take};
ghost use Rattle.tt_io.specs.Count.{Rose, counted};
ghost use Rattle.tt_io.specs.Gave.{Gives, GivesAll};
ghost use Rattle.tt_io.specs.ReadStep.{IfGot, OnEnd, OnFailed};
ghost use Rattle.tt_io.specs.WriteStep.{IfTook, OnRefused};

/// The answer of one read.
#[derive(Clone, Copy, Debug, PartialEq, Eq)]
pub enum ReadStep {
    /// This many bytes, at least one, are at the front of the buffer.
    Got(usize),
    /// Nothing is left.
    End,
    /// The read failed, and took nothing.
    Failed,
}

/// The answer of one write.
#[derive(Clone, Copy, Debug, PartialEq, Eq)]
pub enum WriteStep {
    /// This many bytes of the piece, at least one, were taken from its front.
    Took(usize),
    /// The write failed. Where the bytes written are known, none was written.
    Failed,
}

/// Where bytes come from.
pub trait Source {
    /// The bytes left, where they are known.
    ghost left: { Self → Option (List ℕ) };

    /// How many bytes were given. The count stays at its last value, 2^64 - 1.
    ghost given: { Self → ℕ };

    /// What was given so far: each byte as `Some` of it, and each end that a read answered as
    /// `None`. Every source has it, also one whose bytes left are not known.
    ghost gave: { Self → List (Option ℕ) };

    /// How many faults there were. The count stays at its last value, 2^64 - 1.
    ghost faults: { Self → ℕ };

    /// Takes the first bytes that are left, at least one and as many as it likes, into the front
    /// of `buf`.
    fn read(&mut self, buf: &mut [u8]) -> ReadStep
        requires { 0 < length buf.old }

        ensures size { IfGot result (λ n. (0 < n) × (n ≤ length buf.new)) }
        ensures got { IfGot result (λ n.
            Consumes (left self.old) (left self.new) (take n buf.new)) }
        ensures got_count { IfGot result (λ n. given self.new ≡ counted (given self.old) n) }
        ensures got_gave { IfGot result (λ n.
            Gives (gave self.old) (gave self.new) (take n buf.new)) }

        ensures end { OnEnd result (IsAtEnd (left self.new) × Keeps (left self.old) (left self.new)
            × (given self.new ≡ given self.old)) }
        ensures end_gave { OnEnd result (GivesAll (gave self.old) (gave self.new) []) }

        ensures failed { OnFailed result (Keeps (left self.old) (left self.new)
            × (given self.new ≡ given self.old)) }
        ensures failed_gave { OnFailed result (gave self.new ≡ gave self.old) }
        ensures cause { OnFailed result (Rose (faults self.old) (faults self.new)) }

        ensures never_falls { faults self.old ≤ faults self.new };
}

/// Where bytes go.
pub trait Sink {
    /// The bytes written, where they are known.
    ghost written: { Self → Option (List ℕ) };

    /// How many faults there were. The count stays at its last value, 2^64 - 1.
    ghost faults: { Self → ℕ };

    /// Appends the first bytes of `piece`, at least one and as many as it likes.
    fn write(&mut self, piece: &[u8]) -> WriteStep
        requires { 0 < length piece.now }

        ensures size { IfTook result (λ n. (0 < n) × (n ≤ length piece.now)) }
        ensures took { IfTook result (λ n.
            Appends (written self.old) (written self.new) (take n piece.now)) }

        ensures refused { OnRefused result (Keeps (written self.old) (written self.new)) }
        ensures cause { OnRefused result (Rose (faults self.old) (faults self.new)) }

        ensures never_falls { faults self.old ≤ faults self.new };
}
