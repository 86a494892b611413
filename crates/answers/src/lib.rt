// What the readers of the script answer.
#![tactic(auto)]

ghost use Rattle.std.specs.Prelude.{◌≡◌};
ghost use Rattle.answers.specs.Answers.{number_of};

// What was read, and the place after it.
#[derive(Clone, Copy, Debug, PartialEq, Eq)]
pub struct Read<T> {
    pub value: T,
    pub next: usize,
}

// What is wrong with a script, in document 01's order of numbers.
#[derive(Clone, Copy, Debug, PartialEq, Eq)]
pub enum Fault {
    // 2: an unknown command.
    Unknown,
    // 3: an argument, count or counted command that is missing, unreadable or out of range.
    Argument,
    // 4: a qualifier that cannot stand there.
    Qualifier,
    // 5: a bracket that is unmatched, too deep or never closed.
    Bracket,
    // 6: no line Z.
    NoZ,
    // 33: a string that names no bytes.
    Names,
    // 34: an ill-formed pattern.
    Pattern,
}

impl Fault {
    // The refusal of what stands at a place.
    pub fn at(self, place: usize) -> Refusal
        ensures { result ≡ record { fault = self; place = place } }
    {
        Refusal { fault: self, place }
    }
}

// Document 01's number of a fault.
impl From<Fault> for u32 {
    ghost from_gives = { λ fault n. n ≡ number_of fault };

    fn from(fault: Fault) -> u32 {
        match fault {
            Fault::Unknown => 2,
            Fault::Argument => 3,
            Fault::Qualifier => 4,
            Fault::Bracket => 5,
            Fault::NoZ => 6,
            Fault::Names => 33,
            Fault::Pattern => 34,
        }
    }
}

// A refusal, which is passed upward as it is.
#[derive(Clone, Copy, Debug, PartialEq, Eq)]
pub struct Refusal {
    pub fault: Fault,
    pub place: usize,
}

pub type Answer<T> = Result<Read<T>, Refusal>;

// A part of the script.
#[derive(Clone, Copy, Debug, PartialEq, Eq)]
pub struct Part {
    pub start: usize,
    pub end: usize,
}

// What must follow a command: nothing more, or a command or group; true: if that is a group, ELSE may follow it.
#[derive(Clone, Copy, Debug, PartialEq, Eq)]
pub enum Follow {
    Nothing,
    Body(bool),
}

// A command that was read: what must follow it, and the next free word.
#[derive(Clone, Copy, Debug, PartialEq, Eq)]
pub struct Command {
    pub follow: Follow,
    pub free: usize,
}

// The reader's state between two rounds: what was read so far, the place aside. The open groups' words are the last of the work area.
#[derive(Clone, Copy, Debug, PartialEq, Eq)]
pub struct State {
    // The next free word.
    pub k: usize,
    // How many bodies the next command closes; 0 where none is due. elses: ELSE may follow it if it is a group.
    pub due: usize,
    pub elses: bool,
    // Open groups.
    pub depth: usize,
}
