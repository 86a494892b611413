// The journal buffer during a run, and the commands on it.
#![tactic(auto)]

ghost use Rattle.std.specs.Prelude.{◌≡◌};
ghost use Rattle.editor.specs.Stops.{numbered};
ghost use Rattle.editor.specs.Shows.{ShowsText};

pub mod current;
pub mod edits;
pub mod moves;
pub mod start;
pub mod walk;

// The numbers that go with the journal buffer.
#[derive(Clone, Copy)]
pub struct State {
    // The gap is from front to back.
    pub front: usize,
    pub back: usize,
    // The source lines before the current record.
    pub past: usize,
    // The furthest source line read, EOF counting as lines + 1.
    pub furthest: usize,
    // The source lines of the table.
    pub lines: usize,
    // The bytes of the table before the current record's source line.
    pub source: usize,
    // The bytes of the table.
    pub size: usize,
    pub p: usize,
}

// The journal buffer during a run, and the numbers that go with it: together they show a text.
#[derive(Drop)]
pub struct Editor<'a> {
    pub journal: &'a mut [u8],
    pub st: State,
    ghost shows: { ∥ ShowsText journal.now st ∥₁ },
}

// Why a run stops: the numbers are those of documents 01 and 02.
#[derive(Clone, Copy, Debug, PartialEq, Eq)]
pub enum Stop {
    // 0: W.
    Quit,
    // 20: the command needs a line, and EOF is current.
    AtEof,
    // 21: a search forward, or a line number, met EOF.
    MetEof,
    // 22: there is no previous line, or a search backward met the table's start.
    NoPrevious,
    // 23: the numbered line is deleted.
    LineDeleted,
    // 24: the string does not match.
    NoMatch,
    // 25: a line would be over 255 bytes.
    LineLong,
    // 26: the journal would exceed its buffer.
    JournalFull,
    // 27: p is at the line's end, or at its start.
    PointAtEnd,
    // 28: the last line to delete is before the first.
    LineBefore,
    // 29: the next step would exceed the budget.
    BudgetSpent,
    // 30: there is no next line to join to the current one.
    NoNext,
    // 31: sixteen globals stand, and another is given.
    GlobalsFull,
}

impl From<Stop> for usize {
    ghost from_gives = { λ stop n. n ≡ numbered stop };

    fn from(stop: Stop) -> usize {
        match stop {
            Stop::Quit => 0,
            Stop::AtEof => 20,
            Stop::MetEof => 21,
            Stop::NoPrevious => 22,
            Stop::LineDeleted => 23,
            Stop::NoMatch => 24,
            Stop::LineLong => 25,
            Stop::JournalFull => 26,
            Stop::PointAtEnd => 27,
            Stop::LineBefore => 28,
            Stop::BudgetSpent => 29,
            Stop::NoNext => 30,
            Stop::GlobalsFull => 31,
        }
    }
}

// A run that stops, and the numbers of the journal buffer then: what was read before the stop stays read.
#[derive(Clone, Copy)]
pub struct Stopped {
    pub stop: Stop,
    pub st: State,
}
