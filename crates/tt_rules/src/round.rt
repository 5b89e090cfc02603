//! Rules 4 to 6: the round.

ghost use Rattle.std.specs.Prelude.{◌≡◌, nat_le, ◌*◌};
ghost use Rattle.tt_parts.specs.Located.{parts};
ghost use Rattle.tt_rules.specs.Document.{Document, adjust_of, first_or_zero, limit_of, round_of};
ghost use Rattle.tt_rules.specs.Lines.{least_line};
ghost use Rattle.tt_rules.specs.RoundRules.{is_within, lines_4, lines_5, lines_6};
ghost use Rattle.tt_rules.specs.Table.{first_broken, round_rules};

use crate::broken::{Broken, first_some};
use crate::least::least;
use crate::shapes::{failing, missing, past};
use tt_parts::{At, Declarations};

pub(crate) fn is_within(least: u64, most: u64, number: u64) -> bool
    ensures { result ≡ is_within least most number }
{
    least <= number && number <= most
}

/// Rule 4. There is exactly one round, of 2 to 10,000,000 ticks.
fn rule_4(declared: &Declarations) -> Option<u32>
    ensures { result ≡ least_line (lines_4 declared.now) }
{
    let rounds = declared.rounds.as_slice();
    least(&[
        missing(rounds, declared.first),
        failing(rounds, |round| is_within(2, 10_000_000, *round)),
        past(rounds, 1),
    ])
}

/// Rule 5. There is at most one greatest correction.
fn rule_5(declared: &Declarations) -> Option<u32>
    ensures { result ≡ least_line (lines_5 declared.now) }
{
    least(&[past(declared.adjusts.as_slice(), 1)])
}

/// The first of some numbers, 0 where there is none.
pub fn first_or_zero(numbers: &[At<u64>]) -> u64
    ensures { result ≡ first_or_zero (parts numbers.now) }
{
    match numbers.first() {
        None => 0,
        Some(at) => at.part,
    }
}

fn is_quarter(round: u64, most: u64) -> bool
    ensures { result ≡ nat_le (4 * most) round }
{
    most <= round / 4
}

/// Rule 6. The greatest correction is at most a quarter of a round.
fn rule_6(declared: &Declarations) -> Option<u32>
    ensures { result ≡ least_line (lines_6 declared.now) }
{
    let round = round_of(declared);
    least(&[failing(declared.adjusts.as_slice(), |most| is_quarter(round, *most))])
}

/// The first of rules 4 to 6 that is broken.
pub fn round_broken(declared: &Declarations) -> Option<Broken>
    ensures { (d : Document) → d.declared ≡ declared.now → result ≡ first_broken 4 round_rules d }
{
    first_some(4, &[rule_4(declared), rule_5(declared), rule_6(declared)])
}

/// The length of a round, in ticks.
pub fn round_of(declared: &Declarations) -> u64
    ensures { result ≡ round_of declared.now }
{
    first_or_zero(declared.rounds.as_slice())
}

/// The greatest correction of a round, in ticks.
pub fn adjust_of(declared: &Declarations) -> u64
    ensures { result ≡ adjust_of declared.now }
{
    first_or_zero(declared.adjusts.as_slice())
}

/// A table may use the offsets below this limit: the round's length minus the greatest correction.
pub fn limit_of(declared: &Declarations) -> u64
    ensures { result ≡ limit_of declared.now }
{
    round_of(declared).saturating_sub(adjust_of(declared))
}
