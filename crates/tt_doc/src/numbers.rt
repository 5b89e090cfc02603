//! The numbers and integers of a document.
ghost use Rattle.std.specs.Prelude.{◌≡◌, ◌^◌, ◌<◌, ◌≤◌, length, true, false, IfSome, MatchOption, Some};
ghost use Rattle.std.specs.Char.{is_ascii_digit};
ghost use Rattle.std.specs.Fmt.{decimal, signed_decimal};
ghost use Rattle.std.specs.List.{list_all};
ghost use Rattle.tt_doc.specs.Numbers.{has_no_leading_zero as has_no_zero_in_front, value_of, number_of, positive_of, negative_of, integer_of};

/// How many digits a number has at most.
const MOST_DIGITS: usize = 12;

fn has_no_leading_zero(text: &[u8]) -> bool
    ensures { result ≡ has_no_zero_in_front text.now }
{
    match text {
        [] => false,
        [_] => true,
        [first, ..] => *first != b'0',
    }
}

/// What at most 12 digits are worth. `None` where a byte is no digit.
fn value(text: &[u8]) -> Option<u64>
    requires { length text.now ≤ 12 }
    ensures { MatchOption result (list_all is_ascii_digit text.now ≡ false)
        (λ value. (list_all is_ascii_digit text.now ≡ true) × (value ≡ value_of text.now)) }
{
    let mut value = 0u64;
    for digit in text {
        if !digit.is_ascii_digit() {
            return None;
        }
        value = value * 10 + u64::from(*digit - b'0');
    }
    Some(value)
}

fn short_number(text: &[u8]) -> Option<u64>
    ensures { result ≡ number_of text.now }
{
    if text.len() > MOST_DIGITS || !has_no_leading_zero(text) {
        return None;
    }
    value(text)
}

/// A text as a number: 1 to 12 decimal digits, without a leading zero unless it is `0`. `None`
/// where it is no number.
pub fn number(text: &[u8]) -> Option<u64>
    ensures exact { result ≡ number_of text.now }
    ensures spelled { IfSome result (λ n. text.now ≡ decimal n) }
    ensures small { IfSome result (λ n. n < 10 ^ 12) }
{
    short_number(text)
}

fn positive(number: u64) -> Option<i32>
    ensures { result ≡ positive_of (Some number) }
{
    i32::try_from(number).ok()
}

fn negative(number: u64) -> Option<i32>
    requires { number < 10 ^ 12 }
    ensures { result ≡ negative_of (Some number) }
{
    if number == 0 {
        return None;
    }
    i32::try_from(-(number as i64)).ok()
}

/// A text as an integer: a number, or `-` and a number other than `0`, with a value from
/// -2147483648 to 2147483647. `None` where it is no integer.
pub fn integer(text: &[u8]) -> Option<i32>
    ensures exact { result ≡ integer_of text.now }
    ensures spelled { IfSome result (λ z. text.now ≡ signed_decimal z) }
{
    match text {
        [b'-', digits @ ..] => negative(number(digits)?),
        _ => positive(number(text)?),
    }
}
