// Lines deleted: records are passed over the gap one after the other, or one is struck where it stands. Until the next live line is current the buffer shows
// no text, so these functions take it and its numbers, and no `Editor`.
ghost use Rattle.std.specs.Prelude.{◌≡◌, List, ◌∷◌, ◌+◌, ◌≤◌, ◌<◌, length, set};
ghost use Rattle.definitions.specs.Journal.{Record};
ghost use Rattle.editor.specs.Records.{enc};
ghost use Rattle.editor.specs.Shows.{Holds, strike_over};
ghost use Rattle.spans.specs.Spans.{freed_by, Spanned, Stands, StandsAt, StrikesAt, ClosesHole, Until, PassesTo, Withdraws, StrikesBack, StrikesSpan};

use editor::State;

// The records up to the place `end` are passed, and their lines are deleted.
pub fn strike_to(j: &mut [u8], st: State, end: usize) -> State
    requires { Until j.old st end }
    ensures { PassesTo strike_over end j.old st j.new result }
{
    let mut s = st;
    while s.back < end {
        let f = s.front;
        let past = editor::walk::pass_record(j, s);
        s = editor::edits::strike_record(j, past, f);
    }
    s
}

// Back over the nearest k live records, or to the start.
fn back_live(j: &mut [u8], st: State, k: usize) -> State
    requires { (b : List Record) × (a : List Record) × Holds j.old st b a }
    ensures { Withdraws k j.old st j.new result }
{
    let mut s = st;
    let mut left = k;
    while 0 < left {
        if s.front == 0 {
            return s;
        }
        s = editor::walk::unpass_record(j, s);
        let at = s.back;
        if j[at] != 45 {
            left -= 1;
        }
    }
    s
}

// The nearest k live lines before the current one are deleted.
pub fn strike_back(j: &mut [u8], st: State, k: usize) -> State
    requires { (b : List Record) × (a : List Record) × Holds j.old st b a }
    ensures { StrikesBack k j.old st j.new result }
{
    let end = st.back;
    let near = back_live(j, st, k);
    strike_to(j, near, end)
}

// The lines of the records up to the place `end` are deleted; the next live line is current and read.
pub fn strike_span(j: &mut [u8], st: State, end: usize) -> State
    requires { Spanned j.old st end }
    ensures { StrikesSpan end j.old st j.new result }
{
    let gone = strike_to(j, st, end);
    let l = editor::walk::land_live(j, gone);
    editor::walk::read_current(j, l)
}

// How many bytes fewer the record from `at` up to `next` takes once its line is deleted.
pub fn freed_at(j: &[u8], at: usize, next: usize) -> usize
    requires { (r : Record) × (rs : List Record) × Stands j.now at (r ∷ rs) × (next ≡ at + length (enc r)) }
    ensures { (r : Record) (rs : List Record) → Stands j.now at (r ∷ rs) → next ≡ at + length (enc r) → result ≡ freed_by r }
{
    let mark = j[at];
    if mark == 43 {
        return next - at;
    }
    if mark == 60 {
        return next - 1 - editor::walk::zero_after(j, at);
    }
    0
}

// The bytes from `from` up to `to` go. Those between the gap and them move up, and the gap takes the room.
fn close_hole(j: &mut [u8], st: State, from: usize, to: usize) -> State
    requires { (st.back ≤ from) × (from ≤ to) × (to ≤ length j.old) }
    ensures { ClosesHole from to j.old st j.new result }
{
    let b = st.back;
    let n = to - from;
    gap::clear(j, from, n);
    gap::shift_up(j, b, from, to);
    let mut s = st;
    s.back = b + n;
    s
}

// The record at `at` gets the mark of a deleted one.
fn mark_deleted(j: &mut [u8], at: usize)
    requires { at + 1 < length j.old }
    ensures { j.new ≡ set (set j.old at 45) (at + 1) 45 }
{
    j[at] = 45;
    j[at + 1] = 45;
}

// The line of the record at `at`, the current one or one after it, is deleted where it stands. No record is moved that need not be.
pub fn strike_at(j: &mut [u8], st: State, at: usize) -> State
    requires { StandsAt j.old st at }
    ensures { StrikesAt at j.old st j.new result }
{
    let m = j[at];
    if m == 43 {
        let next = editor::walk::record_end(j, at);
        return close_hole(j, st, at, next);
    }
    if m == 60 {
        // The old text stays, and the line feed after the new one.
        let end = editor::walk::record_end(j, at) - 1;
        let z = editor::walk::zero_after(j, at);
        mark_deleted(j, at);
        return close_hole(j, st, z, end);
    }
    mark_deleted(j, at);
    st
}
