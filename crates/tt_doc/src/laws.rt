//! Laws of the lines, words, numbers and integers of a document. Each is the contract of a
//! function with nothing to do, so that it is proved with the crate.
#![tactic(auto, using(crate::proofs::LineLaws::line_laws, crate::proofs::WordLaws::word_laws, crate::proofs::NumberLaws::number_laws))]

ghost use Rattle.std.specs.Prelude.{◌≡◌, ◌+◌, ◌-◌, ◌^◌, ◌<◌, ◌≤◌, ◌∷◌, ◌++◌, true, None, ℕ, ℤ, List, Some, length, sum_by, IsTrue, FitsSigned};
ghost use Rattle.std.specs.Int.{w32};
ghost use Rattle.std.specs.List.{list_all};
ghost use Rattle.std.specs.Fmt.{decimal, signed_decimal};
ghost use Rattle.tt_doc.specs.Lines.{is_plain_byte, lines_of, fault_of};
ghost use Rattle.tt_doc.specs.Numbers.{number_of, integer_of};
ghost use Rattle.tt_doc.specs.Words.{words_of, joined, is_word};

/// A plain text, a LF and a rest are read as a line of that text and the lines of the rest.
pub fn plain_lines_are_read()
    ensures { (text rest : List ℕ) → IsTrue (list_all is_plain_byte text)
        → lines_of (text ++ 10 ∷ rest) ≡ record { text = text; ended = true } ∷ lines_of rest }
{}

/// A plain line of at most 200 bytes that a LF ends has no fault.
pub fn short_plain_lines_are_good()
    ensures { (text : List ℕ) → IsTrue (list_all is_plain_byte text) → length text ≤ 200
        → fault_of (record { text = text; ended = true }) ≡ None }
{}

/// Each word of a text is some bytes, and none of them is a space.
pub fn words_are_words()
    ensures { (text : List ℕ) → IsTrue (list_all is_word (words_of text)) }
{}

/// Words with one space between them are read as these words.
pub fn joined_words_are_read()
    ensures { (words : List (List ℕ)) → IsTrue (list_all is_word words)
        → words_of (joined words) ≡ words }
{}

/// Joined words are as long as all the words, and one byte longer for each space between two of
/// them.
pub fn joined_words_have_length()
    ensures { (words : List (List ℕ))
        → length (joined words) ≡ sum_by length words + (length words - 1) }
{}

/// Plain words make a plain text.
pub fn joined_words_are_plain()
    ensures { (words : List (List ℕ)) → IsTrue (list_all (list_all is_plain_byte) words)
        → IsTrue (list_all is_plain_byte (joined words)) }
{}

/// The words of a plain text are plain.
pub fn words_of_plain_text_are_plain()
    ensures { (text : List ℕ) → IsTrue (list_all is_plain_byte text)
        → IsTrue (list_all (list_all is_plain_byte) (words_of text)) }
{}

/// The words of a text with one space between them are no longer than the text.
pub fn joined_words_are_no_longer()
    ensures { (text : List ℕ) → length (joined (words_of text)) ≤ length text }
{}

/// A number below 10^12 is read from its decimal spelling.
pub fn numbers_are_read()
    ensures { (n : ℕ) → n < 10 ^ 12 → number_of (decimal n) ≡ Some n }
{}

/// A text that is a number is its decimal spelling, and the number is below 10^12: a number has
/// one spelling.
pub fn numbers_are_spelled()
    ensures { (text : List ℕ) (n : ℕ) → number_of text ≡ Some n
        → (text ≡ decimal n) × (n < 10 ^ 12) }
{}

/// A number's text is a word of plain bytes.
pub fn numbers_are_words()
    ensures { (text : List ℕ) (n : ℕ) → number_of text ≡ Some n
        → IsTrue (is_word text) × IsTrue (list_all is_plain_byte text) }
{}

/// An integer of 32 bits is read from its signed decimal spelling.
pub fn integers_are_read()
    ensures { (z : ℤ) → FitsSigned w32 z → integer_of (signed_decimal z) ≡ Some z }
{}

/// A text that is an integer is its signed decimal spelling, and the integer has 32 bits: an
/// integer has one spelling.
pub fn integers_are_spelled()
    ensures { (text : List ℕ) (z : ℤ) → integer_of text ≡ Some z
        → (text ≡ signed_decimal z) × FitsSigned w32 z }
{}

/// An integer's text is a word of plain bytes.
pub fn integers_are_words()
    ensures { (text : List ℕ) (z : ℤ) → integer_of text ≡ Some z
        → IsTrue (is_word text) × IsTrue (list_all is_plain_byte text) }
{}
