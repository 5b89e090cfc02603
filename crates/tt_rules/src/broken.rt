//! The rule that rows break.

ghost use Rattle.std.specs.Prelude.{◌≡◌, ◌+◌, ◌<◌, ◌≤◌, length};
ghost use Rattle.tt_rules.specs.Table.{first_some};

/// A rule that is broken, by its number, and the least line that breaks it.
#[derive(Clone, Copy)]
pub struct Broken {
    pub number: u8,
    pub line: u32,
}

/// The first of some rules that has a line. They are numbered from this one on.
pub(crate) fn first_some(number: u8, lines: &[Option<u32>]) -> Option<Broken>
    requires { number + length lines.now < 256 }
    ensures { result ≡ first_some number lines.now }
{
    let mut number = number;
    for line in lines {
        if let Some(line) = line {
            return Some(Broken {
                number,
                line: *line,
            });
        }
        number += 1;
    }
    None
}
