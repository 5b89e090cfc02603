//! The correction of a round by global time.

ghost use Rattle.std.specs.Prelude.{◌≡◌, ◌<◌, ◌≤◌, ◌*◌};
ghost use Rattle.tt_world.specs.Correction.{correction_of, length_with};
ghost use Rattle.round_end.specs.Round.{IsWithin};

/// The correction that ttSyncTimes asks for at an offset of a round of this length, from a global
/// time; it is at most the greatest correction. All are in ticks. The OSEK/VDX standard:
/// synchronisation with a global time; the formula is the bench's own.
pub(crate) fn correction(round: u64, adjust: u64, offset: u64, global: u64) -> i64
    requires some { 2 ≤ round }
    requires short { round ≤ 10000000 }
    requires adjust { adjust ≤ round }
    ensures value { result ≡ correction_of round adjust offset global }
    ensures within { IsWithin adjust result }
{
    let ahead = (global % round + (round - offset % round)) % round;
    if 2 * ahead <= round {
        -(ahead.min(adjust) as i64)
    } else {
        (round - ahead).min(adjust) as i64
    }
}

/// The length of a round of this length with a correction, both in ticks.
pub(crate) fn corrected(round: u64, correction: i64) -> u64
    requires short { round ≤ 10000000 }
    requires within { IsWithin round correction }
    ensures { result ≡ length_with round correction }
{
    (round as i64 + correction) as u64
}
