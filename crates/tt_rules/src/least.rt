//! The least of some lines.

ghost use Rattle.std.specs.Prelude.{◌≡◌, []};
ghost use Rattle.tt_rules.specs.Lines.{least_line, least_of, lesser_of, line_unless};

/// The lesser of two lines that may be missing.
pub(crate) fn lesser(one: Option<u32>, other: Option<u32>) -> Option<u32>
    ensures { result ≡ lesser_of one other }
{
    match (one, other) {
        (Some(one), Some(other)) => Some(one.min(other)),
        (one, None) => one,
        (None, other) => other,
    }
}

/// The least of some lines that may be missing.
pub(crate) fn least(lines: &[Option<u32>]) -> Option<u32>
    ensures { result ≡ least_of lines.now }
{
    let mut least = None;
    for line in lines {
        least = lesser(least, *line);
    }
    least
}

/// The lesser of a line that may be missing and another line, which counts where a test failed.
pub(crate) fn with_line_unless(passed: bool, line: u32, least: Option<u32>) -> Option<u32>
    ensures { result ≡ lesser_of least (least_line (line_unless passed line [])) }
{
    if passed {
        least
    } else {
        lesser(least, Some(line))
    }
}
