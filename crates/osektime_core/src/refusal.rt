//! The lines that say why a document is refused.

ghost use Rattle.std.specs.Prelude.{◌≡◌, IfOk, string_bytes};
ghost use Rattle.osektime_core.specs.Answer.{form_line, kind_word, rule_line};

use std::alloc::Global;
use tt_base::Memory;
use tt_read::FormKind;

fn kind_word(kind: FormKind) -> &'static str
    ensures { result.now ≡ kind_word kind }
{
    match kind {
        FormKind::Byte => "byte",
        FormKind::Long => "long",
        FormKind::Cut => "cut",
        FormKind::Row => "row",
    }
}

/// The line for a faulty line of the document.
#[tactic(auto, unfolding(crate::specs::Answer::form_line))]
pub(crate) fn form_line(alloc: Global, line: u32, kind: FormKind) -> Result<String, Memory>
    ensures { IfOk result (λ text. string_bytes text ≡ form_line line kind) }
{
    let word = kind_word(kind);
    let Ok(text) = format!(in alloc; "form line {line} {word}\n") else {
        return Err(Memory);
    };
    Ok(text)
}

/// The line for a rule that a line of the document breaks.
#[tactic(auto, unfolding(crate::specs::Answer::rule_line))]
pub(crate) fn rule_line(alloc: Global, number: u8, line: u32) -> Result<String, Memory>
    ensures { IfOk result (λ text. string_bytes text ≡ rule_line number line) }
{
    let Ok(text) = format!(in alloc; "rule {number} line {line}\n") else {
        return Err(Memory);
    };
    Ok(text)
}
