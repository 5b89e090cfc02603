//! A stamp and its digits.

ghost use Rattle.std.specs.Prelude.{◌≡◌, ◌≤◌, take, length, decimal};

use itoa::Buffer;
use std::marker::Model;
use tt_base::Tick;

/// A stamp in ticks, with its digits ready. Contracts see it as the number of ticks.
#[derive(Drop)]
pub(crate) struct Stamp {
    at: Tick,
    /// `at`, less its last two digits.
    hundreds: Tick,
    /// How many digits there are.
    len: usize,
    /// The digits, and any bytes after them.
    text: [u8; 24],
}

impl Model for Stamp {
    ghost use Rattle.std.specs.Prelude.{ℕ};
    ghost use Rattle.trace_text.specs.Stamp.{IsStamp};

    ghost Value = { ℕ };

    ghost view = { λ s. s.at };

    ghost invariant = { λ s. IsStamp s.at s.text s.len s.hundreds };
}

impl Stamp {
    /// The stamp of a tick.
    pub(crate) fn new(at: Tick) -> Stamp
        ensures { result ≡ at }
    {
        let mut buffer = Buffer::new();
        let digits = buffer.format(at).as_bytes();
        let mut text = [b'0'; 24];
        text[..digits.len()].copy_from_slice(digits);
        Stamp {
            at,
            hundreds: at - at % 100,
            len: digits.len(),
            text,
        }
    }

    /// Goes on to another tick.
    #[inline(always)]
    pub(crate) fn set(&mut self, at: Tick)
        ensures { self.new ≡ at }
    {
        if at != self.at {
            self.move_to(at);
        }
    }

    /// Goes on to another tick. Where only the last two digits differ, only these change.
    fn move_to(&mut self, at: Tick)
        ensures { self.new ≡ at }
    {
        if 100 <= self.hundreds && self.hundreds <= at && at - self.hundreds < 100 {
            let past = (at - self.hundreds) as u8;
            self.text[self.len - 2] = b'0' + past / 10;
            self.text[self.len - 1] = b'0' + past % 10;
            self.at = at;
        } else {
            *self = Stamp::new(at);
        }
    }

    /// How many digits there are.
    #[inline(always)]
    pub(crate) fn len(&self) -> usize
        ensures few { result ≤ 20 }
        ensures digits { result ≡ length (decimal self.now) }
    {
        self.len
    }

    /// The digits, and any bytes after them.
    #[inline(always)]
    pub(crate) fn padded(&self) -> &[u8; 24]
        ensures { take (length (decimal self.now)) result.now ≡ decimal self.now }
    {
        &self.text
    }
}
