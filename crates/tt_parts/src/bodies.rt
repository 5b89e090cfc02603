//! Bodies by their rows, which are read from the last to the first.

ghost use Rattle.std.specs.Prelude.{◌≡◌, [], ◌∷◌, IfOk, OnOk, Some, None};
ghost use Rattle.task_lang.specs.declared.syntax.Expr.{Expr};
ghost use Rattle.task_lang.specs.declared.syntax.Stmt.TheOpen.{Stmt-F};
ghost use Rattle.tt_parts.specs.Bodies.{Head, block_then, bodies_of, body_of, body_then, else_then, first_branch, head_of, no_branches, owner_in, plain_then, row_then, statement_of, statement_then};
ghost use Rattle.tt_parts.specs.Located.{at_then};
ghost use Rattle.tt_parts.specs.Structure.{standing_of};

use crate::expressions::expression_of;
use crate::front_list::FrontList;
use crate::located::At;
use crate::naming::number_named;
use sqlite_items::Items;
use std::alloc::Global;
use std::marker::Model;
use task_lang::{Body, Expr, Stmt};
use tt_base::{Call, DemandNo, Memory, ModeNo, Names, OsekNo, Series, VarNo};
use tt_rows::{NumberedRow, Row};

/// What has a body, as its row says it.
#[derive(Clone, Copy)]
pub enum Owner {
    /// A time-triggered task: its stack words.
    Task(u64),
    /// A time-triggered interrupt service routine: its level, its stack words, and the least
    /// distance of two of its interrupts in ticks, if one is declared.
    Isr(u64, u64, Option<u64>),
    /// A task of the OSEK subsystem: its priority, and whether it is ready at tick 0.
    Osek(u64, bool),
    /// An interrupt service routine of the OSEK subsystem: its priority.
    Oisr(u64),
    /// ttErrorHook.
    ErrorHook,
    /// ttShutdownHook.
    ShutdownHook,
}

/// A body and its owner.
#[derive(Drop)]
pub struct BodyPart {
    pub owner: Owner,
    pub body: Body,
}

/// The statements of a body or a block from some row on, up to an `else` in between, and the
/// statements after that `else`.
#[derive(Drop)]
struct Block {
    first: FrontList<Stmt>,
    second: FrontList<Stmt>,
}

impl Model for Block {
    ghost use Rattle.std.specs.Prelude.{List, refl};
    ghost use Rattle.std.specs.Coded.{code_by, coded×, coded_list};
    ghost use Rattle.task_lang.specs.contracts.syntax.Stmt as stmt;
    ghost use Rattle.task_lang.specs.declared.syntax.Stmt.{Stmt};
    ghost use Rattle.tt_parts.specs.Bodies.{Branches};

    ghost Value = { Branches };

    ghost coded = { code_by (List Stmt × List Stmt)
        (coded× (coded_list stmt.the_row.coded) (coded_list stmt.the_row.coded))
        (λ b. (b.first, b.second)) (λ p. record { first = p.0; second = p.1 }) (λ _. refl) };

    ghost view = { λ b. record { first = b.first; second = b.second } };
}

/// For each thing that is open at some row, the innermost first: its statements from there on.
type Blocks = FrontList<Block>;

/// The bodies of rows, each with its owner and the line of the row that opens it, read in one pass.
pub fn bodies_of(
    alloc: Global,
    names: &Names,
    rows: &[NumberedRow],
) -> Result<Series<At<BodyPart>>, Memory>
    ensures { IfOk result (λ bodies. bodies ≡ bodies_of names.now rows.now) }
{
    let mut blocks = FrontList::new(alloc);
    let mut bodies = FrontList::new(alloc);
    let mut left = rows;
    while let Some((row, before)) = left.split_last() {
        put_numbered(alloc, names, row, &mut blocks, &mut bodies)?;
        left = before;
    }
    bodies.into_series(alloc)
}

/// The owner that a row declares.
fn owner_in(row: &Row) -> Option<Owner>
    ensures { result ≡ owner_in row.now }
{
    match row {
        Row::Task(_, stack) => Some(Owner::Task(*stack)),
        Row::Isr(_, level, stack) => Some(Owner::Isr(*level, *stack, None)),
        Row::IsrFar(_, level, stack, distance) => Some(Owner::Isr(*level, *stack, Some(*distance))),
        Row::Osek(_, priority) => Some(Owner::Osek(*priority, false)),
        Row::OsekAuto(_, priority) => Some(Owner::Osek(*priority, true)),
        Row::Oisr(_, priority) => Some(Owner::Oisr(*priority)),
        Row::HookError => Some(Owner::ErrorHook),
        Row::HookShutdown => Some(Owner::ShutdownHook),
        _ => None,
    }
}

/// Reads a row that comes before the rows read so far.
fn put_numbered(
    alloc: Global,
    names: &Names,
    row: &NumberedRow,
    blocks: &mut Blocks,
    bodies: &mut FrontList<At<BodyPart>>,
) -> Result<(), Memory>
    ensures blocks { OnOk result (blocks.new
        ≡ row_then (standing_of row.now.row) (head_of names.now row.now.row) blocks.old) }
    ensures bodies { OnOk result (bodies.new
        ≡ at_then row.now.line (body_of (owner_in row.now.row) blocks.old) bodies.old) }
{
    match owner_in(&row.row) {
        None => put_row(alloc, names, &row.row, blocks),
        Some(owner) => {
            let body = take_body(alloc, blocks);
            bodies.push_front(At {
                line: row.line,
                part: BodyPart { owner, body },
            })
        }
    }
}

/// Reads a row that comes before the rows read so far. Where it opens a body, the body is given up.
fn put_row(alloc: Global, names: &Names, row: &Row, blocks: &mut Blocks) -> Result<(), Memory>
    ensures { OnOk result
        (blocks.new ≡ row_then (standing_of row.now) (head_of names.now row.now) blocks.old) }
{
    match row {
        Row::Work(ticks) => put_statement(Stmt::Work(*ticks), blocks),
        Row::Take(demand) => put_statement(
            Stmt::Take(DemandNo(number_named(names, *demand))),
            blocks,
        ),
        Row::Set(var, terms) => {
            let expr = expression_of(alloc, names, terms.as_slice())?;
            put_statement(Stmt::Set(VarNo(number_named(names, *var)), expr), blocks)
        }
        Row::If(terms) => put_if(expression_of(alloc, names, terms.as_slice())?, blocks),
        Row::Else => put_else(alloc, blocks),
        Row::Repeat(turns) => put_repeat(*turns, blocks),
        Row::End => put_end(alloc, blocks),
        Row::Out(terms) => {
            let expr = expression_of(alloc, names, terms.as_slice())?;
            put_statement(Stmt::Out(expr), blocks)
        }
        Row::Switch(mode) => put_call(Call::Switch(ModeNo(number_named(names, *mode))), blocks),
        Row::Sync => put_call(Call::Sync, blocks),
        Row::Shutdown => put_call(Call::Shutdown, blocks),
        Row::Activate(task) => put_call(Call::Activate(OsekNo(number_named(names, *task))), blocks),
        Row::Chain(task) => put_call(Call::Chain(OsekNo(number_named(names, *task))), blocks),
        Row::Terminate => put_call(Call::Terminate, blocks),
        _ => {
            if owner_in(row).is_some() {
                let _body = take_body(alloc, blocks);
            }
            Ok(())
        }
    }
}

/// Reads a call of a service.
fn put_call(call: Call, blocks: &mut Blocks) -> Result<(), Memory>
    ensures { OnOk result (blocks.new ≡ plain_then (Some (Stmt-F.Service call)) blocks.old) }
{
    put_statement(Stmt::Service(call), blocks)
}

/// Reads an `end`: a body or a block that nothing follows.
fn put_end(alloc: Global, blocks: &mut Blocks) -> Result<(), Memory>
    ensures { OnOk result (blocks.new ≡ no_branches ∷ blocks.old) }
{
    blocks.push_front(Block {
        first: FrontList::new(alloc),
        second: FrontList::new(alloc),
    })
}

/// Reads a statement: it comes before what follows in the innermost body or block.
fn put_statement(stmt: Stmt, blocks: &mut Blocks) -> Result<(), Memory>
    ensures { OnOk result (blocks.new ≡ statement_then stmt blocks.old) }
{
    match blocks.front_mut() {
        None => Ok(()),
        Some(inner) => inner.first.push_front(stmt),
    }
}

/// Reads an `else`: what follows is the second branch.
fn put_else(alloc: Global, blocks: &mut Blocks) -> Result<(), Memory>
    ensures { OnOk result (blocks.new ≡ else_then blocks.old) }
{
    let Some(Block { first, second: _ }) = blocks.pop_front() else {
        return Ok(());
    };
    blocks.push_front(Block {
        first: FrontList::new(alloc),
        second: first,
    })
}

/// Reads an `if`: the innermost block has its branches.
fn put_if(expr: Expr, blocks: &mut Blocks) -> Result<(), Memory>
    ensures { OnOk result (blocks.new ≡ block_then (Some (Stmt-F.If expr [] [])) blocks.old) }
{
    let Some(Block { first, second }) = blocks.pop_front() else {
        return Ok(());
    };
    put_statement(
        Stmt::If(expr, statements(first), statements(second)),
        blocks,
    )
}

/// Reads a `repeat`: the innermost block is what it repeats.
fn put_repeat(turns: u64, blocks: &mut Blocks) -> Result<(), Memory>
    ensures { OnOk result (blocks.new ≡ block_then (Some (Stmt-F.Repeat turns [])) blocks.old) }
{
    let Some(Block { first, second: _ }) = blocks.pop_front() else {
        return Ok(());
    };
    put_statement(Stmt::Repeat(turns, statements(first)), blocks)
}

/// Reads a row that opens a body: its body is complete.
fn take_body(alloc: Global, blocks: &mut Blocks) -> Body
    ensures after { blocks.new ≡ body_then blocks.old }
    ensures body { result ≡ first_branch blocks.old }
{
    match blocks.pop_front() {
        Some(Block { first, second: _ }) => statements(first),
        None => Items::new(alloc),
    }
}

fn statements(stmts: FrontList<Stmt>) -> Body
    ensures { result ≡ stmts }
{
    Items::from_vec(stmts.into_vec())
}
