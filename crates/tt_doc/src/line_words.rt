//! The words of a line, and their places.
ghost use Rattle.std.specs.Prelude.{◌≡◌, ◌+◌, ◌<◌, ◌≤◌, ℕ, [], ◌∷◌, ◌++◌, length, map, nat_lt, if◌then◌else◌, All, AllPairs};
ghost use Rattle.arrayvec.specs.ArrayVec.{array_vec_len};
ghost use Rattle.tt_doc.specs.Span.{text_of};
ghost use Rattle.tt_doc.specs.Words.{words_of};

use crate::Span;
use arrayvec::ArrayVec;

/// Adds a word, unless it has no bytes.
fn push_word(words: &mut ArrayVec<Span, 100>, word: Span)
    requires { word.start < word.end → array_vec_len words.old < 100 }
    ensures { words.new.items ≡ (if nat_lt word.start word.end then words.old.items ++ word ∷ []
        else words.old.items) }
{
    if word.start < word.end {
        words.push(word);
    }
}

/// The words of a line, which are its longest runs of bytes other than the space, in their order.
/// At most 200 bytes have at most 100 words.
pub fn words(bytes: &[u8], span: Span) -> ArrayVec<Span, 100>
    requires ordered { span.start ≤ span.end }
    requires short { span.end ≤ span.start + 200 }
    requires inside { span.end ≤ length bytes.now }

    ensures words { map (text_of bytes.now) result.items ≡ words_of (text_of bytes.now span) }
    ensures within { All (λ word. (span.start ≤ word.start) × (word.end ≤ span.end)) result.items }
    ensures not_empty { All (λ word. word.start < word.end) result.items }
    ensures ascend { AllPairs (λ earlier later. earlier.end < later.start) result.items }
{
    let mut words = ArrayVec::new();
    let mut start = span.start;
    for at in span.start..span.end {
        if bytes[at] == b' ' {
            push_word(&mut words, Span { start, end: at });
            start = at + 1;
        }
    }
    push_word(
        &mut words,
        Span {
            start,
            end: span.end,
        },
    );
    words
}
