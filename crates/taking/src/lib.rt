// Which part of a line a pattern takes, found by one walk over the line.
#![tactic(auto)]

ghost use Rattle.std.specs.Prelude.{◌≡◌, false, cond, ◌≤◌, ◌<◌, length, ltb};
ghost use Rattle.definitions.specs.Matching.{text, stands_in, taken};
ghost use Rattle.definitions.specs.Patterns.{Pattern};
ghost use Rattle.wordset.specs.Sets.{in_set};
ghost use Rattle.marks.specs.Sweeping.{never, Reads, slots, no_marks};
ghost use Rattle.leads.specs.Leading.{leads_of};
ghost use Rattle.taking.specs.Ways.{anchor_of, found_of, best_of, best_with, enter_at, ends_at};
ghost use Rattle.taking.specs.Walking.{AtPlace};

use leads::{Leads, leads_with, next_lead};
use marks::idle::is_idle;
use marks::{NEVER, sweep};
use wordset::beside::{is_free_at, is_free_before};

// What is asked for: B or P (from the left end of the text), E or P (up to its right end), L, W.
#[derive(Clone, Copy)]
pub struct Way {
    pub left: bool,
    pub right: bool,
    pub last: bool,
    pub word: bool,
}

// The part that is taken: its place in the line, and its width.
#[derive(Clone, Copy, Debug, PartialEq, Eq)]
pub struct Found {
    pub at: usize,
    pub width: usize,
}

// The best match so far: where it begins, NEVER for none, as in the marks, and where it ends.
#[derive(Clone, Copy)]
struct Best {
    start: u16,
    end: usize,
}

// The place i, where a match may begin there; else NEVER.
fn entering(set: &[u32], line: &[u8], start: usize, i: usize, way: Way) -> u16
    requires { (3 ≤ length set.now) × (i ≤ length line.now) × (length line.now ≤ 255) }
    ensures { result ≡ enter_at (in_set set.now 0) way line.now start i }
{
    if way.left {
        if i != start {
            return NEVER;
        }
    }
    if way.word {
        if is_free_before(set, line, i) {
            return i as u16;
        }
        return NEVER;
    }
    i as u16
}

// May a match end at i.
fn may_end(set: &[u32], line: &[u8], end: usize, i: usize, way: Way) -> bool
    requires { 3 ≤ length set.now }
    ensures { result ≡ ends_at (in_set set.now 0) way line.now end i }
{
    if way.right {
        if i != end {
            return false;
        }
    }
    if way.word {
        return is_free_at(set, line, i);
    }
    true
}

// The better one of the best so far and a match from `start` to i, NEVER for none.
fn better(best: Best, start: u16, i: usize, last: bool) -> Best
    ensures { result ≡ best_with last best start i }
{
    if start == NEVER {
        return best;
    }
    if last {
        return Best { start, end: i };
    }
    if best.start < start {
        return best;
    }
    Best { start, end: i }
}

// The best match as an answer.
fn answer(best: Best) -> Option<Found>
    requires { best.start < never → best.start ≤ best.end }
    ensures { found_of result ≡ best_of best }
{
    if best.start == NEVER {
        return None;
    }
    let at = best.start as usize;
    Some(Found {
        at,
        width: best.end - at,
    })
}

// A match is found, and no later one can be better where none is begun.
fn is_settled(best: Best, last: bool) -> bool
    ensures { result ≡ cond last false (ltb best.start never) }
{
    if last {
        return false;
    }
    best.start < NEVER
}

// The walk at place i, b being the byte there: the marks move, and a match that ends here may be better.
fn at_place(
    set: &[u32],
    line: &[u8],
    start: usize,
    end: usize,
    i: usize,
    b: u8,
    pattern: &[u8],
    way: Way,
    best: Best,
    marks: &mut [u16],
) -> Best
    requires { (3 ≤ length set.now) × (i ≤ length line.now) × (length line.now ≤ 255) × ((p : Pattern) × Reads pattern.now p × (slots p ≤ length marks.old)) }
    ensures { (p : Pattern) → Reads pattern.now p → AtPlace (in_set set.now 0) way line.now start end i b p best marks.old marks.new result }
{
    let enter = entering(set, line, start, i, way);
    let out = sweep(pattern, b, enter, marks);
    if may_end(set, line, end, i, way) {
        return better(best, out, i, way.last);
    }
    best
}

// The walk over the line from `start` to `end`, from no marks on. While no match is begun, the bytes that none can begin with are passed at once.
fn walk_line(
    set: &[u32],
    leads: Leads,
    line: &[u8],
    start: usize,
    end: usize,
    pattern: &[u8],
    way: Way,
    marks: &mut [u16],
) -> Option<Found>
    requires { (3 ≤ length set.now) × (start ≤ end) × (end ≤ length line.now) × (length line.now ≤ 255) × (length pattern.now ≤ 255) × (marks.old ≡ no_marks 256) × ((p : Pattern) × Reads pattern.now p × (leads ≡ leads_of p)) }
    ensures { (p : Pattern) → Reads pattern.now p → found_of result ≡ taken (anchor_of way) way.last (stands_in (in_set set.now 0) way.word p line.now) (text start end) }
{
    let mut best = Best {
        start: NEVER,
        end: 0,
    };
    let mut idle = true;
    let mut i = next_lead(leads, line, start, end);
    while i < end {
        best = at_place(set, line, start, end, i, line[i], pattern, way, best, marks);
        i += 1;
        idle = is_idle(marks, pattern.len());
        if idle {
            if is_settled(best, way.last) {
                return answer(best);
            }
            i = next_lead(leads, line, i, end);
        }
    }
    if idle {
        if !leads_with(leads, 127) {
            return answer(best);
        }
    }
    best = at_place(set, line, start, end, end, 127, pattern, way, best, marks);
    answer(best)
}

// The part of the line from `start` to `end` that the pattern takes, where the bytes of the set count for W. The leads are the bytes that a match can
// begin with.
pub fn find(
    set: &[u32],
    leads: Leads,
    line: &[u8],
    start: usize,
    end: usize,
    pattern: &[u8],
    way: Way,
) -> Option<Found>
    requires { (3 ≤ length set.now) × (start ≤ end) × (end ≤ length line.now) × (length line.now ≤ 255) × (length pattern.now ≤ 255) × ((p : Pattern) × Reads pattern.now p × (leads ≡ leads_of p)) }
    ensures { (p : Pattern) → Reads pattern.now p → found_of result ≡ taken (anchor_of way) way.last (stands_in (in_set set.now 0) way.word p line.now) (text start end) }
{
    let mut marks = [NEVER; 256];
    walk_line(set, leads, line, start, end, pattern, way, &mut marks)
}
