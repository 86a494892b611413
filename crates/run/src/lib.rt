// The run: a script on a table, within a budget of steps; its journal, and how it ended.
#![tactic(auto)]

mod decoded;
pub mod values;

ghost use Rattle.std.specs.Prelude.{◌≡◌, List, ◌+◌, ◌*◌, ◌≤◌, length, leb};
ghost use Rattle.run.specs.Answers.{refused_by, Ran};
ghost use Rattle.definitions.specs.Journal.{Record};
ghost use Rattle.editor.specs.Shows.{Holds};
ghost use Rattle.run.specs.Items.{CanRun, RunsTable, SomeEnd, PassesUnread, GivesClosed, Opening, GivesRun};

use answers::Refusal;
use decoded::{Ended, run_items};
use editor::{Editor, Stopped};

// How a run ends: done, stopped or refused.
#[derive(Clone, Copy)]
pub enum Answer {
    Done {
        steps: usize,
        furthest: usize,
        length: usize,
    },
    Stopped {
        number: usize,
        steps: usize,
        furthest: usize,
        length: usize,
        place: usize,
    },
    Refused {
        number: usize,
        place: usize,
    },
}

// Whether a journal buffer of `room` bytes has room for the opening journal of a table: its bytes, and a mark of two a line.
fn opening_fits(bytes: usize, lines: usize, room: usize) -> bool
    requires { lines ≤ 65535 }
    ensures { result ≡ leb (bytes + 2 * lines) room }
{
    if room < bytes {
        return false;
    }
    if room - bytes < 2 * lines {
        return false;
    }
    true
}

// The run of the decoded items from the opening journal on. No global stands as it begins.
fn run_opened(
    table: &[u8],
    script: &[u8],
    budget: usize,
    work: &mut [u32],
    end: usize,
    journal: &mut [u8],
) -> Ended
    requires { Opening table.now journal.old × CanRun script.now work.old end budget }
    ensures { RunsTable script.now work.old end budget table.now journal.old work.new journal.new result }
{
    let mut ed = Editor::open(table, journal);
    globals::begin(work);
    run_items(script, table, work, end, budget, &mut ed)
}

// Where the script is done, the lines that it left unread pass through the standing globals: all of them, or none, and then the run stops at the
// script's end.
fn pass_unread(script: &[u8], work: &[u32], journal: &mut [u8], ended: Ended) -> Ended
    requires { SomeEnd script.now work.now journal.old ended }
    ensures { PassesUnread script.now work.now journal.old ended journal.new result }
{
    let number = ended.number;
    if number > 0 {
        return ended;
    }
    let steps = ended.steps;
    match tail::pass_rest(script, work, journal, ended.st) {
        Ok(last) => Ended {
            number: 0,
            steps,
            place: 0,
            st: last,
        },
        Err(Stopped { stop, st: last }) => Ended {
            number: usize::from(stop),
            steps,
            place: script.len(),
            st: last,
        },
    }
}

// The answer, and the arranged journal at the start of its buffer.
fn close(journal: &mut [u8], ended: Ended, furthest: usize) -> Answer
    requires { (b : List Record) × (a : List Record) × Holds journal.old ended.st b a }
    ensures { GivesClosed journal.old furthest ended result journal.new }
{
    let number = ended.number;
    let steps = ended.steps;
    let length = closing::close_journal(journal, ended.st);
    if number == 0 {
        return Answer::Done {
            steps,
            furthest,
            length,
        };
    }
    Answer::Stopped {
        number,
        steps,
        furthest,
        length,
        place: ended.place,
    }
}

// The run of the decoded items, from the opening journal to the closed one. What passes through the globals at the end does not count as read.
fn run_table(
    table: &[u8],
    script: &[u8],
    budget: usize,
    work: &mut [u32],
    end: usize,
    journal: &mut [u8],
) -> Answer
    requires { Opening table.now journal.old × CanRun script.now work.old end budget }
    ensures { GivesRun script.now work.old end budget table.now journal.old result journal.new }
{
    let ended = run_opened(table, script, budget, work, end, journal);
    let st = ended.st;
    let furthest = st.furthest;
    let last = pass_unread(script, work, journal, ended);
    close(journal, last, furthest)
}

// The run of the decoded items on any bytes: 7 and 9 are tested before anything is written.
fn run_decoded(
    table: &[u8],
    script: &[u8],
    budget: usize,
    work: &mut [u32],
    end: usize,
    journal: &mut [u8],
) -> Answer
    requires { CanRun script.now work.old end budget }
    ensures { GivesRun script.now work.old end budget table.now journal.old result journal.new }
{
    let Some(lines) = text::table_form(table) else {
        return Answer::Refused {
            number: 7,
            place: 0,
        };
    };
    if opening_fits(table.len(), lines, journal.len()) {
        return run_table(table, script, budget, work, end, journal);
    }
    Answer::Refused {
        number: 9,
        place: 0,
    }
}

// The refusal of a script that does not decode, with the reader's number and place.
fn refused(refusal: Refusal) -> Answer
    ensures { result ≡ refused_by refusal }
{
    Answer::Refused {
        number: u32::from(refusal.fault) as usize,
        place: refusal.place,
    }
}

// Runs the script on the table. The journal comes to the start of its buffer, zeros after it; refused, the buffer is untouched. Only the work area is
// left as it comes.
pub fn run(table: &[u8], script: &[u8], budget: u32, work: &mut [u32], journal: &mut [u8]) -> Answer
    ensures { Ran table.now script.now budget (length work.old) journal.old result journal.new }
{
    if !text::is_script(script) {
        return Answer::Refused {
            number: 1,
            place: 0,
        };
    }
    if work.len() < 2 * script.len() + 64 {
        return Answer::Refused {
            number: 8,
            place: 0,
        };
    }
    let decoded = script::read_script(script, work);
    let Ok(end) = decoded else {
        return refused(decoded.unwrap_err());
    };
    run_decoded(table, script, budget as usize, work, end, journal)
}
