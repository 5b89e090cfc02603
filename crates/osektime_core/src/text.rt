//! Appending to a text in memory.

ghost use Rattle.std.specs.Prelude.{◌≡◌, ◌++◌, OnOk};
ghost use Rattle.tt_base.specs.Names.{name_of};

use itoa::{Buffer, Integer};
use tt_base::{Declared, Memory, Names};

/// Appends bytes.
pub(crate) fn put_bytes(text: &mut Vec<u8>, bytes: &[u8]) -> Result<(), Memory>
    ensures { OnOk result (text.new.items ≡ text.old.items ++ bytes.now) }
{
    text.extend_from_slice(bytes)?;
    Ok(())
}

/// Appends a number in decimal.
pub(crate) fn put_digits<I: Integer>(text: &mut Vec<u8>, number: I) -> Result<(), Memory>
    ensures { OnOk result (text.new.items ≡ text.old.items ++ I.text number) }
{
    let mut buffer = Buffer::new();
    put_bytes(text, buffer.format(number).as_bytes())
}

/// Appends the name of a declared thing, nothing where it has none.
pub(crate) fn put_name(text: &mut Vec<u8>, names: &Names, which: Declared) -> Result<(), Memory>
    ensures { OnOk result (text.new.items ≡ text.old.items ++ name_of names.now which) }
{
    match names.get(which) {
        Some(name) => put_bytes(text, name.as_bytes()),
        None => Ok(()),
    }
}
