//! The names of declared things.

ghost use Rattle.std.specs.Prelude.{◌≡◌, ◌≤◌, true, false, length, take, MatchOption};
ghost use Rattle.std.specs.Str.{bytes_eq};
ghost use Rattle.tt_base.specs.Name.{is_name, is_letter, is_name_byte, is_rest_of_name, with_zeros};

use std::cmp::Ordering;
use std::hash::{Hash, Hasher};
use std::marker::Model;

/// How many bytes a name has at most.
pub const NAME_BYTES: usize = 16;

/// A name of a document: 1 to 16 bytes, a letter or `_` and then letters, digits or `_`. Case
/// counts. Contracts see it as the list of its bytes.
#[derive(Clone, Copy)]
pub struct Name {
    /// The text, and zeros after it.
    bytes: [u8; NAME_BYTES],
}

impl Model for Name {
    ghost use Rattle.std.specs.Prelude.{◌≡◌, List, ℕ};
    ghost use Rattle.tt_base.specs.Name.{IsPadded, name_in, with_zeros};

    ghost Value = { List ℕ };

    ghost view = { λ n. name_in n.bytes };

    ghost invariant = { λ n. IsPadded n.bytes };

    ghost inverse = { λ v. record { bytes = with_zeros v } };

    ghost inverse_ok = { λ n h i. record { bytes = h.whole i } };
}

impl Name {
    /// A text as a name. None exactly where the text is no name.
    pub fn new(text: &[u8]) -> Option<Name>
        ensures { MatchOption result (is_name text.now ≡ false)
            (λ n. (is_name text.now ≡ true) × (n ≡ text.now)) }
    {
        if !is_name(text) {
            return None;
        }
        let mut bytes = [0; NAME_BYTES];
        bytes[..text.len()].copy_from_slice(text);
        Some(Name { bytes })
    }

    /// The text.
    pub fn as_bytes(&self) -> &[u8]
        ensures text { result.now ≡ self.now }
        ensures named { is_name self.now ≡ true }
    {
        &self.bytes[..self.len()]
    }

    /// How many bytes the text has.
    pub fn len(&self) -> usize
        ensures value { result ≡ length self.now }
        ensures few { result ≤ NAME_BYTES }
    {
        let zeros = u128::from_le_bytes(self.bytes).leading_zeros() / 8;
        NAME_BYTES - zeros as usize
    }

    /// The text with zeros after it.
    pub fn padded(&self) -> &[u8; NAME_BYTES]
        ensures text { take (length self.now) result.now ≡ self.now }
        ensures whole { result.now ≡ with_zeros self.now }
    {
        &self.bytes
    }

    /// Whether two names are the same.
    pub fn is_same(&self, other: &Name) -> bool
        ensures { result ≡ bytes_eq self.now other.now }
    {
        self.as_bytes() == other.as_bytes()
    }
}

impl PartialEq for Name {
    ghost use Rattle.std.specs.Str.{bytes_eq};
    ghost use Rattle.std.specs.Cmp.{partial_equiv_from_equiv};
    ghost use Rattle.std.specs.Cmp.Lexicographic.{nat_list_eq_equiv};

    ghost eq = { bytes_eq };

    ghost laws = { partial_equiv_from_equiv nat_list_eq_equiv };

    fn eq(&self, other: &Name) -> bool {
        self.is_same(other)
    }
}

impl Eq for Name {
    ghost use Rattle.std.specs.Cmp.Lexicographic.{nat_list_eq_equiv};

    ghost laws = { nat_list_eq_equiv };
}

/// Names are hashed by their bytes.
impl Hash for Name {
    ghost use Rattle.std.specs.Hash as fed;
    ghost use Rattle.tt_base.specs.Name.{number_of_name, same_number};

    ghost hash_input = { λ n. fed.u128 (number_of_name n) };

    ghost respects_eq = { same_number };

    #[tactic(auto, unfolding(crate::specs::Name::number_of_name))]
    fn hash<H: Hasher>(&self, state: &mut H) {
        state.write_u128(u128::from_le_bytes(*self.padded()));
    }
}

/// Names are ordered by their bytes.
impl PartialOrd for Name {
    ghost use Rattle.std.specs.Prelude.{Some};
    ghost use Rattle.std.specs.Ordering.{nat_cmp};
    ghost use Rattle.std.specs.Cmp.Lexicographic.{slice_cmp, texts_po};

    ghost partial_cmp = { λ x y. Some (slice_cmp nat_cmp x y) };

    ghost laws = { texts_po };

    fn partial_cmp(&self, other: &Name) -> Option<Ordering> {
        Some(self.cmp(other))
    }
}

impl Ord for Name {
    ghost use Rattle.std.specs.Prelude.{refl};
    ghost use Rattle.std.specs.Ordering.{nat_cmp};
    ghost use Rattle.std.specs.Cmp.Lexicographic.{slice_cmp, nat_list_cmp_total, texts_ties};

    ghost cmp = { slice_cmp nat_cmp };

    ghost total = { nat_list_cmp_total };

    ghost matches_partial_cmp = { λ x y. refl };

    ghost matches_eq = { texts_ties };

    fn cmp(&self, other: &Name) -> Ordering {
        self.as_bytes().cmp(other.as_bytes())
    }
}

fn is_name(text: &[u8]) -> bool
    ensures { result ≡ is_name text.now }
{
    match text.split_first() {
        None => false,
        Some((first, rest)) => is_letter(*first) && is_rest_of_name(rest),
    }
}

fn is_rest_of_name(rest: &[u8]) -> bool
    ensures { result ≡ is_rest_of_name rest.now }
{
    for byte in rest {
        if !is_name_byte(*byte) {
            return false;
        }
    }
    rest.len() < NAME_BYTES
}

fn is_letter(byte: u8) -> bool
    ensures { result ≡ is_letter byte }
{
    byte == b'_' || byte.is_ascii_uppercase() || byte.is_ascii_lowercase()
}

fn is_name_byte(byte: u8) -> bool
    ensures { result ≡ is_name_byte byte }
{
    is_letter(byte) || byte.is_ascii_digit()
}
