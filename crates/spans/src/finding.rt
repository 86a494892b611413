// Where the lines end that D and R take, and where the next live line is. Nothing moves.
ghost use Rattle.std.specs.Prelude.{◌≡◌, List, suc, ◌+◌, ◌-◌, ◌≤◌, ◌<◌, length};
ghost use Rattle.definitions.specs.Journal.{Record};
ghost use Rattle.definitions.specs.Editor.{sources};
ghost use Rattle.editor.specs.Shows.{Holds, ShowsText};
ghost use Rattle.spans.specs.Spans.{through_of, Finds, SourceAt, Stands, LiveAt, Until, Counts, CountedTo, ReadsFrom, ReadsNext, Spanned, FindsAfter};
ghost use Rattle.spans.specs.Edited.{FindsEnd};

use crate::Next;
use editor::{Editor, State, Stop, Stopped};

// Where the record of source line b starts, which stands from the current record on.
fn source_at(j: &[u8], st: State, b: usize) -> usize
    requires { ((c : List Record) × (a : List Record) × Holds j.now st c a) × (st.past < b) × (b ≤ st.lines) }
    ensures { (c : List Record) (a : List Record) → Holds j.now st c a → SourceAt j.now result (b - suc (sources c)) a }
{
    let mut at = st.back;
    let mut n = st.past;
    loop {
        if j[at] != 43 {
            n += 1;
            if n >= b {
                return at;
            }
        }
        at = editor::walk::record_end(j, at);
    }
}

// Where the records end that D and R take from the current line on, and the numbers once they are read.
// `through` is 0 for the one line, 65,536 for `*`, else a source line.
fn find_end(ed: &Editor<'_>, through: usize) -> Result<(usize, State), Stopped>
    ensures { Finds ed.now.journal.now ed.now.st (through_of through) result }
{
    let st = ed.st;
    let at = st.back;
    let end = ed.journal.len();
    if at >= end {
        return Err(Stopped {
            stop: Stop::AtEof,
            st,
        });
    }
    if through == 0 {
        return Ok((editor::walk::record_end(ed.journal, at), st));
    }
    if through == 65536 {
        return Ok((end, editor::walk::read_to(st, st.lines + 1)));
    }
    if through <= st.past {
        return Err(Stopped {
            stop: Stop::LineBefore,
            st,
        });
    }
    let s = editor::walk::read_to(st, through);
    // A line that is not there is not deleted: of 21 and 23 at most one can be.
    if st.lines < through {
        return Err(Stopped {
            stop: Stop::MetEof,
            st: s,
        });
    }
    let last = source_at(ed.journal, st, through);
    if ed.journal[last] == 45 {
        return Err(Stopped {
            stop: Stop::LineDeleted,
            st: s,
        });
    }
    Ok((editor::walk::record_end(ed.journal, last), s))
}

// The same, and the lines are read.
pub fn span_end(ed: &mut Editor<'_>, through: usize) -> Result<usize, Stop>
    ensures { FindsEnd (through_of through) ed.old ed.new result }
{
    match find_end(ed, through) {
        Ok((end, s)) => {
            ed.st = s;
            Ok(end)
        }
        Err(Stopped { stop, st: s }) => {
            ed.st = s;
            Err(stop)
        }
    }
}

// Where a live record stands behind the gap, or the buffer's end where there is none; and how many source lines stand before it.
#[derive(Clone, Copy)]
struct Live {
    at: usize,
    past: usize,
}

// The first live record from `from` on, before which `past` source lines stand.
fn live_from(j: &[u8], from: usize, past: usize) -> Live
    requires { (b : List Record) × (a : List Record) × Stands j.now from a × (past ≡ sources b) × (sources b + sources a ≤ 65535) }
    ensures { (b : List Record) (a : List Record) → Stands j.now from a → past ≡ sources b → LiveAt j.now result b a }
{
    let mut at = from;
    let mut n = past;
    loop {
        if at >= j.len() {
            return Live { at, past: n };
        }
        if j[at] != 45 {
            return Live { at, past: n };
        }
        n += 1;
        at = editor::walk::record_end(j, at);
    }
}

// How many source lines stand before the place `end`. Like what looks below, it takes the buffer and its numbers: with a `&mut Editor` the check would forget
// what it knows of the buffer.
pub fn past_to(j: &[u8], st: State, end: usize) -> usize
    requires { Until j.now st end }
    ensures { Counts end j.now st result }
{
    let mut at = st.back;
    let mut n = st.past;
    while at < end {
        if j[at] != 43 {
            n += 1;
        }
        at = editor::walk::record_end(j, at);
    }
    n
}

// The next live line after the records up to the place `end`, before which `past` source lines stand, is found and read.
pub fn next_from(j: &[u8], st: State, end: usize, past: usize) -> Next
    requires { CountedTo j.now st end past }
    ensures { ReadsFrom end past j.now st result }
{
    let live = live_from(j, end, past);
    let at = live.at;
    if at < j.len() {
        if j[at] == 43 {
            // An inserted line has no number: the line before it is read already, or is read now.
            return Next {
                at,
                st: editor::walk::read_to(st, live.past),
            };
        }
    }
    Next {
        at,
        st: editor::walk::read_to(st, live.past + 1),
    }
}

// The next live line after the current one is found and read. Nothing moves.
pub fn read_next(j: &[u8], st: State) -> Next
    requires { ShowsText j.now st × (st.back < length j.now) }
    ensures { ReadsNext j.now st result }
{
    let b = st.back;
    let mut past = st.past;
    if j[b] != 43 {
        past += 1;
    }
    let end = editor::walk::record_end(j, b);
    next_from(j, st, end, past)
}

// The next live line after the records up to the place `end` is found and read. Nothing moves.
pub fn read_after(ed: &Editor<'_>, end: usize) -> Next
    requires { Spanned ed.now.journal.now ed.now.st end }
    ensures { FindsAfter end ed.now.journal.now ed.now.st result }
{
    let past = past_to(ed.journal, ed.st, end);
    next_from(ed.journal, ed.st, end, past)
}
