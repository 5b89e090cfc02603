//! Which owner may have which statements. The table is the bench's own.

ghost use Rattle.std.specs.Prelude.{◌≡◌};
ghost use Rattle.task_lang.specs.declared.syntax.Stmt.{out-Stmt};
ghost use Rattle.task_lang.specs.Allowed.{is_allowed, may_call};

use crate::syntax::Stmt;
use tt_base::Call;

/// The kinds of owner that have a body.
#[derive(Clone, Copy, PartialEq, Eq)]
pub enum OwnerKind {
    /// A time-triggered task.
    Task,
    /// A time-triggered interrupt service routine.
    Isr,
    /// A task of the OSEK subsystem.
    Osek,
    /// An interrupt service routine of the OSEK subsystem.
    Oisr,
    /// ttErrorHook or ttShutdownHook.
    Hook,
}

/// Whether an owner of this kind may have the statement. Statements inside it are not looked at.
pub fn allowed(stmt: &Stmt, kind: OwnerKind) -> bool
    ensures { result ≡ is_allowed kind (out-Stmt stmt.now) }
{
    match stmt {
        Stmt::Set(_, _) | Stmt::Out(_) => true,
        Stmt::Work(_) | Stmt::Take(_) | Stmt::If(_, _, _) | Stmt::Repeat(_, _) => kind
            != OwnerKind::Hook,
        Stmt::Service(call) => may_call(*call, kind),
    }
}

fn may_call(call: Call, kind: OwnerKind) -> bool
    ensures { result ≡ may_call kind call }
{
    match call {
        Call::Switch(_) | Call::Sync | Call::Shutdown => matches!(
            kind,
            OwnerKind::Task | OwnerKind::Isr
        ),
        Call::Activate(_) => matches!(kind, OwnerKind::Osek | OwnerKind::Oisr),
        Call::Chain(_) | Call::Terminate => kind == OwnerKind::Osek,
    }
}
