//! Where an unfinished activation is in its code.

ghost use Rattle.std.specs.Prelude.{◌≡◌, ◌<◌, ◌↔◌, List, [], ◌∷◌, length, IsTrue};
ghost use Rattle.task_lang.specs.declared.syntax.Stmt.{Stmt};
ghost use Rattle.task_machine.specs.Standing.{body_of, left_of, program_of, work_begun, is_ended, work_in_front, IsSound, StandsFor, IsNoFrame};

use crate::codes::Codes;
use crate::rest::settle;

/// An unfinished activation of a program. With its codes it stands for the list of statements that
/// are left. Only `advance` changes it.
#[derive(Clone, Copy)]
pub struct Frame {
    pub(crate) place: usize,
    /// The ticks left of the `work` before the place.
    pub(crate) work: u64,
    /// The turns left of each `repeat` around the place, the outermost first.
    pub(crate) counters: [u16; 4],
    pub(crate) program: u16,
    /// Whether nothing is left.
    pub(crate) ended: bool,
}

impl Default for Frame {
    ghost is_default = { IsNoFrame };

    /// A frame that stands for no list, whatever the codes are. It fills unused places.
    fn default() -> Frame {
        Frame {
            place: 0,
            work: 0,
            counters: [0; 4],
            program: u16::MAX,
            ended: true,
        }
    }
}

impl Frame {
    /// The frame of a program that has not begun. It takes no memory.
    pub fn start(codes: &Codes, program: u16) -> Frame
        requires { program < length codes.now }
        ensures program { program_of result ≡ program }
        ensures whole { StandsFor codes.now result (body_of codes.now program) }
    {
        let mut frame = Frame {
            place: 0,
            work: 0,
            counters: [0; 4],
            program,
            ended: false,
        };
        settle(&mut frame, codes.instrs(program), 0);
        frame
    }

    /// The number of its program.
    pub fn program(&self) -> u16
        ensures { result ≡ program_of self.now }
    {
        self.program
    }

    /// The ticks left of the `work` at the front; 0 where no `work` is there.
    pub fn work_left(&self) -> u64
        ensures begun { result ≡ work_begun self.now }
        ensures front { (codes : List (List Stmt)) → IsSound codes self.now
            → result ≡ work_in_front (left_of codes self.now) }
    {
        self.work
    }

    /// Whether nothing is left.
    pub fn ended(&self) -> bool
        ensures flag { result ≡ is_ended self.now }
        ensures nothing { (codes : List (List Stmt)) → IsSound codes self.now
            → IsTrue result ↔ (left_of codes self.now ≡ []) }
    {
        self.ended
    }
}
