//! The words of the language.

ghost use Rattle.std.specs.Prelude.{◌≡◌, [], ◌∷◌};
ghost use Rattle.tt_read.specs.Keywords.{keyword_among, keyword_of, keyword_text, keywords_with};

/// A word of the language: the first word of a row, or one between its fields.
#[derive(Clone, Copy)]
pub enum Keyword {
    Osektime,
    One,
    Round,
    Adjust,
    Mode,
    Var,
    Demand,
    Task,
    Isr,
    Osek,
    Auto,
    Oisr,
    Hook,
    Error,
    Shutdown,
    At,
    Activate,
    Stringent,
    Nonstringent,
    Enable,
    Start,
    Rounds,
    Value,
    Arrive,
    Time,
    Work,
    Take,
    Set,
    If,
    Else,
    Repeat,
    End,
    Out,
    Switch,
    Sync,
    Chain,
    Terminate,
}

impl Keyword {
    /// A text as a word of the language. It is looked for among those with its first byte.
    #[tactic(auto, using(crate::proofs::FirstBytes::found_by_first), unfolding(crate::specs::Keywords::keyword_of))]
    pub fn new(text: &[u8]) -> Option<Keyword>
        ensures { result ≡ keyword_of text.now }
    {
        match text.split_first() {
            Some((first, _)) => among(with_first(*first), text),
            None => None,
        }
    }

    /// How it is spelled.
    pub fn text(self) -> &'static [u8]
        ensures { result.now ≡ keyword_text self }
    {
        match self {
            Keyword::Osektime => b"osektime",
            Keyword::One => b"1",
            Keyword::Round => b"round",
            Keyword::Adjust => b"adjust",
            Keyword::Mode => b"mode",
            Keyword::Var => b"var",
            Keyword::Demand => b"demand",
            Keyword::Task => b"task",
            Keyword::Isr => b"isr",
            Keyword::Osek => b"osek",
            Keyword::Auto => b"auto",
            Keyword::Oisr => b"oisr",
            Keyword::Hook => b"hook",
            Keyword::Error => b"error",
            Keyword::Shutdown => b"shutdown",
            Keyword::At => b"at",
            Keyword::Activate => b"activate",
            Keyword::Stringent => b"stringent",
            Keyword::Nonstringent => b"nonstringent",
            Keyword::Enable => b"enable",
            Keyword::Start => b"start",
            Keyword::Rounds => b"rounds",
            Keyword::Value => b"value",
            Keyword::Arrive => b"arrive",
            Keyword::Time => b"time",
            Keyword::Work => b"work",
            Keyword::Take => b"take",
            Keyword::Set => b"set",
            Keyword::If => b"if",
            Keyword::Else => b"else",
            Keyword::Repeat => b"repeat",
            Keyword::End => b"end",
            Keyword::Out => b"out",
            Keyword::Switch => b"switch",
            Keyword::Sync => b"sync",
            Keyword::Chain => b"chain",
            Keyword::Terminate => b"terminate",
        }
    }
}

/// The words of the language with a first byte.
#[tactic(auto, unfolding(crate::specs::Keywords::keywords_with))]
fn with_first(first: u8) -> &'static [Keyword]
    ensures { result.now ≡ keywords_with first }
{
    match first {
        b'a' => &[
            Keyword::Arrive,
            Keyword::Activate,
            Keyword::At,
            Keyword::Auto,
            Keyword::Adjust,
        ],
        b'c' => &[Keyword::Chain],
        b'd' => &[Keyword::Demand],
        b'e' => &[Keyword::End, Keyword::Else, Keyword::Enable, Keyword::Error],
        b'h' => &[Keyword::Hook],
        b'i' => &[Keyword::If, Keyword::Isr],
        b'm' => &[Keyword::Mode],
        b'n' => &[Keyword::Nonstringent],
        b'o' => &[
            Keyword::Out,
            Keyword::Oisr,
            Keyword::Osek,
            Keyword::Osektime,
        ],
        b'r' => &[Keyword::Repeat, Keyword::Rounds, Keyword::Round],
        b's' => &[
            Keyword::Sync,
            Keyword::Switch,
            Keyword::Set,
            Keyword::Start,
            Keyword::Stringent,
            Keyword::Shutdown,
        ],
        b't' => &[
            Keyword::Terminate,
            Keyword::Take,
            Keyword::Time,
            Keyword::Task,
        ],
        b'v' => &[Keyword::Value, Keyword::Var],
        b'w' => &[Keyword::Work],
        b'1' => &[Keyword::One],
        _ => &[],
    }
}

/// The first of these words with this text.
#[tactic(auto, unfolding(crate::specs::Keywords::keyword_among))]
fn among(words: &[Keyword], text: &[u8]) -> Option<Keyword>
    ensures { result ≡ keyword_among words.now text.now }
{
    words.iter().copied().find(|word| text == word.text())
}
