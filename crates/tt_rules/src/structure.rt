//! Rules 1 to 3: the header and the blocks.

ghost use Rattle.std.specs.Prelude.{◌≡◌, ◌+◌, ◌<◌, ◌≤◌, ◌^◌, [], false, List, length, slice_get, IfOk, OnOk};
ghost use Rattle.tt_parts.specs.declared.structure.Open.{Open};
ghost use Rattle.tt_rules.specs.Document.{Document};
ghost use Rattle.tt_rules.specs.Lines.{least_line};
ghost use Rattle.tt_rules.specs.StructureRules.{is_header, is_misplaced, lines_1, lines_2, lines_3, opens_block, stack_then};
ghost use Rattle.tt_rules.specs.Table.{first_broken, structure_rules};

use crate::broken::{Broken, first_some};
use crate::least::with_line_unless;
use crate::shapes::failing_row;
use std::alloc::Global;
use tt_base::Memory;
use tt_parts::{FrontList, Open, Standing, standing_of};
use tt_rows::{NumberedRow, Row};

fn is_header(row: &Row) -> bool
    ensures { result ≡ is_header row.now }
{
    matches!(row, Row::Header)
}

/// Rule 1. The first row is the header and no other row is.
fn rule_1(rows: &[NumberedRow]) -> Option<u32>
    ensures { result ≡ least_line (lines_1 rows.now) }
{
    match rows.split_first() {
        None => Some(1),
        Some((first, rest)) => {
            if is_header(&first.row) {
                failing_row(rest, |row| !is_header(row))
            } else {
                Some(first.line)
            }
        }
    }
}

/// Whether a row is not allowed where this is the innermost open thing.
fn is_misplaced(inner: Option<Open>, standing: Standing) -> bool
    ensures { (stack : List Open) → inner ≡ slice_get stack 0
        → result ≡ is_misplaced stack standing }
{
    match (inner, standing) {
        (None, Standing::Top | Standing::Opener(_)) => false,
        (None, _) => true,
        (Some(_), Standing::Top | Standing::Opener(_)) => true,
        (Some(inner), Standing::OfElse) => inner != Open::If,
        (Some(_), _) => false,
    }
}

/// Opens or closes what a row does, where the row is allowed.
fn pass(stack: &mut FrontList<Open>, standing: Standing) -> Result<(), Memory>
    requires { is_misplaced stack.old standing ≡ false }
    ensures { OnOk result (stack.new ≡ stack_then stack.old standing) }
{
    match standing {
        Standing::Top | Standing::Plain => Ok(()),
        Standing::Opener(kind) => stack.push_front(Open::Body(kind)),
        Standing::OfIf => stack.push_front(Open::If),
        Standing::OfElse => {
            let _inner = stack.pop_front();
            stack.push_front(Open::Else)
        }
        Standing::OfRepeat => stack.push_front(Open::Repeat),
        Standing::OfEnd => {
            let _inner = stack.pop_front();
            Ok(())
        }
    }
}

/// Rule 2. Blocks are well formed; the first row that is not allowed breaks it, or the last row
/// where something is open after it. The stack of what is open takes memory.
fn rule_2(alloc: Global, rows: &[NumberedRow]) -> Result<Option<u32>, Memory>
    ensures { IfOk result (λ line. line ≡ least_line (lines_2 rows.now)) }
{
    let mut stack = FrontList::new(alloc);
    let mut last = 0;
    for row in rows {
        let standing = standing_of(&row.row);
        if is_misplaced(stack.front().copied(), standing) {
            return Ok(Some(row.line));
        }
        pass(&mut stack, standing)?;
        last = row.line;
    }
    Ok(stack.front().is_some().then_some(last))
}

/// How many blocks may be open at once inside a body.
const MOST_BLOCKS: usize = 4;

fn opens_block(row: &Row) -> bool
    ensures { result ≡ opens_block row.now }
{
    matches!(row, Row::If(_) | Row::Repeat(_))
}

/// How many things are open after a row, where this many are before it.
fn height_after(height: usize, standing: Standing) -> usize
    requires { height < usize.MAX }
    ensures height { (stack : List Open) → height ≡ length stack
        → result ≡ length (stack_then stack standing) }
    ensures bound { result ≤ height + 1 }
{
    match standing {
        Standing::Top | Standing::Plain | Standing::OfElse => height,
        Standing::Opener(_) => height.max(1),
        Standing::OfIf | Standing::OfRepeat => { if height == 0 { 0 } else { height + 1 } }
        Standing::OfEnd => height.saturating_sub(1),
    }
}

/// Rule 3. At most 4 blocks are open at once inside a body; the row that opens a fifth breaks it.
fn rule_3(rows: &[NumberedRow]) -> Option<u32>
    ensures { result ≡ least_line (lines_3 rows.now) }
{
    let mut least = None;
    let mut height = 0;
    for row in rows {
        let is_high = !(opens_block(&row.row) && height > MOST_BLOCKS);
        least = with_line_unless(is_high, row.line, least);
        height = height_after(height, standing_of(&row.row));
    }
    least
}

/// The first of rules 1 to 3 that is broken.
pub fn structure_broken(alloc: Global, rows: &[NumberedRow]) -> Result<Option<Broken>, Memory>
    ensures { IfOk result (λ broken. (d : Document) → d.rows ≡ rows.now
        → broken ≡ first_broken 1 structure_rules d) }
{
    let second = rule_2(alloc, rows)?;
    Ok(first_some(1, &[rule_1(rows), second, rule_3(rows)]))
}
