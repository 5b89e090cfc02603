//! The lines of events, written straight into a buffer.

ghost use Rattle.std.specs.Prelude.{◌≡◌, ◌+◌, ◌≤◌, [], ◌∷◌, ◌++◌, length, codes, decimal, if◌then◌else◌};
ghost use Rattle.std.specs.Fmt.{signed_decimal};
ghost use Rattle.tt_base.specs.declared.names.Declared.TheVariants as Which;
ghost use Rattle.tt_base.specs.Names.{name_of};
ghost use Rattle.trace_text.specs.Lines.{call_words, correction, line, line_of, owner_name, spaced};

use crate::line_buffer::LineBuffer;
use crate::stamp::Stamp;
use tt_base::{Call, Declared, Event, ModeNo, Names, Owner, TaskNo, Tick};
use tt_io::CAPACITY;

impl LineBuffer {
    /// The stamp at the start of a line.
    #[inline(always)]
    fn begin(&mut self, stamp: &mut Stamp, at: Tick)
        requires { length self.old + 24 ≤ CAPACITY }
        ensures text { self.new ≡ self.old ++ decimal at }
        ensures few { length self.new ≤ length self.old + 20 }
    {
        stamp.set(at);
        self.stamp(stamp);
    }

    /// A stamp and fixed words.
    #[inline(never)]
    fn plain(&mut self, stamp: &mut Stamp, at: Tick, words: &[u8])
        requires short { length words.now ≤ 20 }
        requires room { length self.old + 96 ≤ CAPACITY }
        ensures line { self.new ≡ self.old ++ line (decimal at ∷ words.now ∷ []) }
        ensures few { length self.new ≤ length self.old + 96 }
    {
        self.begin(stamp, at);
        self.word(words);
        self.end();
    }

    /// A stamp, fixed words and the name of a thing.
    #[inline(always)]
    fn with_name(
        &mut self,
        stamp: &mut Stamp,
        at: Tick,
        words: &[u8],
        names: &Names,
        which: Declared,
    )
        requires short { length words.now ≤ 20 }
        requires room { length self.old + 96 ≤ CAPACITY }
        ensures line { self.new ≡ self.old
            ++ line (decimal at ∷ words.now ∷ name_of names.now which ∷ []) }
        ensures few { length self.new ≤ length self.old + 96 }
    {
        self.begin(stamp, at);
        self.word(words);
        self.name(names, which);
        self.end();
    }

    /// A stamp, a fixed word and the name of an owner.
    #[inline(always)]
    fn with_owner(&mut self, stamp: &mut Stamp, at: Tick, word: &[u8], names: &Names, owner: Owner)
        requires short { length word.now ≤ 20 }
        requires room { length self.old + 96 ≤ CAPACITY }
        ensures line { self.new ≡ self.old
            ++ line (decimal at ∷ word.now ∷ owner_name names.now owner ∷ []) }
        ensures few { length self.new ≤ length self.old + 96 }
    {
        self.begin(stamp, at);
        self.word(word);
        self.owner(names, owner);
        self.end();
    }

    /// Deadline monitoring looks at a task.
    #[inline(always)]
    fn check(&mut self, stamp: &mut Stamp, at: Tick, names: &Names, task: TaskNo, met: bool)
        requires { length self.old + 96 ≤ CAPACITY }
        ensures line { let name = name_of names.now (Which.Task task) in
            let seen = if met then codes "met" else codes "missed" in
            self.new ≡ self.old ++ line (decimal at ∷ codes "check" ∷ name ∷ seen ∷ []) }
        ensures few { length self.new ≤ length self.old + 96 }
    {
        self.begin(stamp, at);
        self.word(b"check");
        self.name(names, Declared::Task(task));
        self.word(if met { b"met" } else { b"missed" });
        self.end();
    }

    /// A round gets longer or shorter.
    fn correct(&mut self, stamp: &mut Stamp, at: Tick, by: i64)
        requires { length self.old + 96 ≤ CAPACITY }
        ensures line { self.new ≡ self.old
            ++ line (decimal at ∷ codes "correct" ∷ correction by ∷ []) }
        ensures few { length self.new ≤ length self.old + 96 }
    {
        self.begin(stamp, at);
        self.word(b"correct");
        self.correction(by);
        self.end();
    }

    /// A dispatcher round begins.
    fn round(&mut self, stamp: &mut Stamp, at: Tick, number: u32, names: &Names, mode: ModeNo)
        requires { length self.old + 96 ≤ CAPACITY }
        ensures line { let name = name_of names.now (Which.Mode mode) in
            self.new ≡ self.old
            ++ line (decimal at ∷ codes "round" ∷ decimal number ∷ name ∷ []) }
        ensures few { length self.new ≤ length self.old + 96 }
    {
        self.begin(stamp, at);
        self.word(b"round");
        self.number(number);
        self.name(names, Declared::Mode(mode));
        self.end();
    }

    /// A body outputs a value.
    fn out(&mut self, stamp: &mut Stamp, at: Tick, names: &Names, owner: Owner, value: i32)
        requires { length self.old + 96 ≤ CAPACITY }
        ensures line { let name = owner_name names.now owner in
            self.new ≡ self.old
            ++ line (decimal at ∷ codes "out" ∷ name ∷ signed_decimal value ∷ []) }
        ensures few { length self.new ≤ length self.old + 96 }
    {
        self.begin(stamp, at);
        self.word(b"out");
        self.owner(names, owner);
        self.number(value);
        self.end();
    }

    /// A service, and its argument where it has one.
    fn call(&mut self, names: &Names, call: Call)
        requires { length self.old + 33 ≤ CAPACITY }
        ensures text { self.new ≡ self.old ++ spaced (call_words names.now call) }
        ensures few { length self.new ≤ length self.old + 33 }
    {
        match call {
            Call::Switch(mode) => {
                self.word(b"ttSwitchAppMode");
                self.name(names, Declared::Mode(mode));
            }
            Call::Sync => self.word(b"ttSyncTimes"),
            Call::Shutdown => self.word(b"ttShutdownOS"),
            Call::Activate(task) => {
                self.word(b"ActivateTask");
                self.name(names, Declared::Osek(task));
            }
            Call::Chain(task) => {
                self.word(b"ChainTask");
                self.name(names, Declared::Osek(task));
            }
            Call::Terminate => self.word(b"TerminateTask"),
        }
    }

    /// A body calls a service.
    fn called(
        &mut self,
        stamp: &mut Stamp,
        at: Tick,
        names: &Names,
        owner: Owner,
        call: Call,
        answer: u8,
    )
        requires { length self.old + 96 ≤ CAPACITY }
        ensures line { let name = owner_name names.now owner in
            self.new ≡ self.old ++ line (decimal at ∷ codes "call" ∷ name
            ∷ call_words names.now call ++ decimal answer ∷ []) }
        ensures few { length self.new ≤ length self.old + 96 }
    {
        self.begin(stamp, at);
        self.word(b"call");
        self.owner(names, owner);
        self.call(names, call);
        self.number(answer);
        self.end();
    }

    /// Appends the line of an event, its LF included, word by word.
    #[tactic(auto, unfolding(crate::specs::Lines::line_of))]
    pub(crate) fn event(&mut self, stamp: &mut Stamp, names: &Names, event: &Event)
        requires { length self.old + 96 ≤ CAPACITY }
        ensures line { self.new ≡ self.old ++ line_of names.now event.now }
        ensures few { length self.new ≤ length self.old + 96 }
    {
        match *event {
            Event::OsStart { at, mode } => self.with_name(
                stamp,
                at,
                b"os start",
                names,
                Declared::Mode(mode),
            ),
            Event::Round { at, number, mode } => self.round(stamp, at, number, names, mode),
            Event::Correct { at, by } => self.correct(stamp, at, by),
            Event::Check { at, task, met } => self.check(stamp, at, names, task, met),
            Event::Enable { at, isr } => self.with_name(
                stamp,
                at,
                b"enable",
                names,
                Declared::Isr(isr),
            ),
            Event::Arrive { at, source } => self.with_owner(stamp, at, b"arrive", names, source),
            Event::Merge { at, source } => self.with_owner(stamp, at, b"merge", names, source),
            Event::Accept { at, source } => self.with_owner(stamp, at, b"accept", names, source),
            Event::Activate { at, task } => self.with_name(
                stamp,
                at,
                b"activate",
                names,
                Declared::Task(task),
            ),
            Event::Run { at, who } => self.with_owner(stamp, at, b"run", names, who),
            Event::End { at, owner } => self.with_owner(stamp, at, b"end", names, owner),
            Event::Out { at, owner, value } => self.out(stamp, at, names, owner, value),
            Event::Called {
                at,
                owner,
                call,
                result: answer,
            } => self.called(stamp, at, names, owner, call, answer),
            Event::ErrorHook { at, task } => self.with_name(
                stamp,
                at,
                b"hook ttErrorHook",
                names,
                Declared::Task(task),
            ),
            Event::ShutdownHook { at } => self.plain(stamp, at, b"hook ttShutdownHook"),
            Event::Shutdown { at } => self.plain(stamp, at, b"shutdown"),
            Event::Stop { at } => self.plain(stamp, at, b"stop"),
        }
    }
}
