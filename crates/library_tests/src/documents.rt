//! The lines, words and numbers of a document, at their edges.

ghost use Rattle.std.specs.Prelude.{◌<◌};

use tt_doc::{LineKind, LineStep, Span, integer, next_line, number, words};

/// What is read of a line of `len` letters that others follow.
fn line_of_letters(len: usize) -> LineStep
    requires { len < 202 }
{
    let mut bytes = [b'x'; 202];
    bytes[len] = b'\n';
    next_line(&bytes, 0)
}

#[test]
fn lines_have_at_most_200_bytes(rt: HostRuntime) {
    for len in 0..201 {
        assert_eq!(rt;
            line_of_letters(len),
            LineStep::Line(Span { start: 0, end: len }, len + 1)
        );
    }
    assert_eq!(rt; line_of_letters(201), LineStep::Fault(LineKind::Long));
}

#[test]
fn the_least_fault_of_a_line_counts(rt: HostRuntime) {
    let rows: [(&[u8], LineStep); 9] = [
        (b"", LineStep::End),
        (b"round 10", LineStep::Fault(LineKind::Cut)),
        (b" ~\n", LineStep::Line(Span { start: 0, end: 2 }, 3)),
        (b"a\nround", LineStep::Line(Span { start: 0, end: 1 }, 2)),
        (b"a\x7F", LineStep::Fault(LineKind::Byte)),
        (b"\ta\n", LineStep::Fault(LineKind::Byte)),
        (&[b'x'; 200], LineStep::Fault(LineKind::Cut)),
        (&[b'x'; 201], LineStep::Fault(LineKind::Long)),
        (&[0; 201], LineStep::Fault(LineKind::Byte)),
    ];
    for (bytes, step) in rows {
        assert_eq!(rt; next_line(bytes, 0), step);
    }
    assert_eq!(rt; next_line(b"a\nround", 2), LineStep::Fault(LineKind::Cut));
    assert_eq!(rt; next_line(b"a\n", 2), LineStep::End);
}

#[test]
fn two_hundred_bytes_have_a_hundred_words(rt: HostRuntime) {
    let mut bytes = [b' '; 200];
    for k in 0..100 {
        bytes[2 * k] = b'x';
    }
    let found = words(&bytes, Span { start: 0, end: 199 });
    assert_eq!(rt; found.len(), 100);
    let last = Span {
        start: 198,
        end: 199,
    };
    assert_eq!(rt; found.as_slice().last().copied(), Some(last));
}

#[test]
fn spaces_stand_round_words(rt: HostRuntime) {
    let found = words(b"a\n  set x  5 \n", Span { start: 2, end: 13 });
    let spans = [
        Span { start: 4, end: 7 },
        Span { start: 8, end: 9 },
        Span { start: 11, end: 12 },
    ];
    assert_eq!(rt; found.as_slice(), spans.as_slice());
    assert_eq!(rt; words(b"   ", Span { start: 0, end: 3 }).len(), 0);
}

#[test]
fn numbers_have_at_most_12_digits(rt: HostRuntime) {
    let rows: [(&[u8], Option<u64>); 6] = [
        (b"0", Some(0)),
        (b"999999999999", Some(999_999_999_999)),
        (b"1000000000000", None),
        (b"00", None),
        (b"", None),
        (b"1a", None),
    ];
    for (text, want) in rows {
        assert_eq!(rt; number(text), want);
    }
}

#[test]
fn integers_have_32_bits(rt: HostRuntime) {
    let rows: [(&[u8], Option<i32>); 8] = [
        (b"2147483647", Some(i32::MAX)),
        (b"2147483648", None),
        (b"-2147483648", Some(i32::MIN)),
        (b"-2147483649", None),
        (b"-0", None),
        (b"-", None),
        (b"0", Some(0)),
        (b"-3", Some(-3)),
    ];
    for (text, want) in rows {
        assert_eq!(rt; integer(text), want);
    }
}
