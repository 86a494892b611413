// The bodies that run. Each has a word above the items: the index of its opener, and the rounds left times 65,536. A bracket starts those that are
// groups.
ghost use Rattle.std.specs.Prelude.{◌≡◌, Bool, List, ℕ, ◌+◌, ◌*◌, ◌<◌, length, set};
ghost use Rattle.definitions.specs.Control.{Opener, Item, Frame};
ghost use Rattle.control.specs.Shown.{FrameAt, InFrames, test_by};
ghost use Rattle.control.specs.Answers.{AtOpener, AtClose, SaysGroup, StartsBody, EndsBody, LeadsOut};

use super::{Ask, Mode, Point, Step, stand, wants};
use items::ends::end_of;
use items::heads::{kind_of, place_of};
use items::kinds::{BRACKET, IF, UNLESS, UNTIL, WHILE};
use items::openers::{Way, times_at, way_of};

// Opens a body above `depth` others.
pub fn push(w: &mut [u32], end: usize, depth: usize, item: usize, left: u32)
    requires { (end + depth < length w.old) × (item < 65536) × (left < 65536) }
    ensures { w.new ≡ set w.old (end + depth) (item + 65536 * left) }
{
    w[end + depth] = item as u32 + 65536 * left;
}

// What the test of an opener of this kind asks.
#[tactic(auto, unfolding(crate::specs::Shown::test_by))]
fn test_of(kind: u32) -> Ask
    ensures { result ≡ test_by kind }
{
    match kind {
        IF | WHILE => Ask::Holds,
        UNLESS | UNTIL => Ask::HoldsNot,
        _ => Ask::AtEof,
    }
}

// Is the body of the word at j a group?
fn is_group(w: &[u32], end: usize, j: usize) -> bool
    requires { ((s : List ℕ) × (d : ℕ) × (g : Bool) × (place : ℕ) × (o : Opener) × (body : List Item) × FrameAt s w.now end j d g place o body) × (j < length w.now) }
    ensures { SaysGroup w.now end j result }
{
    let item = (w[j] % 65536) as usize;
    let start = end_of(w, item, kind_of(w, item));
    // of a body of no items there is no word to look at
    if end <= start {
        return false;
    }
    kind_of(w, start) == BRACKET
}

// Where AGP leads: out of the innermost group and what it is the body of; where there is none, to the next line end.
pub fn leave_to(w: &[u32], end: usize, next: usize, depth: usize) -> Point
    requires { (s : List ℕ) × (items : List Item) × (frames : List Frame) × InFrames s w.now end next depth depth items frames }
    ensures { LeadsOut w.now end next depth result }
{
    for d in (0..depth).rev() {
        if is_group(w, end, end + d) {
            return stand(Mode::Skipping(depth - d), next, d);
        }
    }
    stand(Mode::Leaving, next, 0)
}

// At the opener at `at`, whose body starts at `next`.
pub fn start_body(w: &mut [u32], end: usize, at: usize, next: usize, depth: usize) -> Step
    requires { AtOpener w.old end at next depth }
    ensures { StartsBody w.old w.new end at next depth result }
{
    let kind = kind_of(w, at);
    let place = place_of(w, at);
    let yes = stand(Mode::Running, next, depth + 1);
    match way_of(kind) {
        Way::Counting => {
            let n = times_at(w, at);
            if n > 0 {
                push(w, end, depth, at, n - 1);
                return wants(Ask::Round, place, at, yes, yes);
            }
            Step::On(stand(Mode::Skipping(1), next, depth))
        }
        Way::Branching => {
            push(w, end, depth, at, 0);
            let no = stand(Mode::Failing(1), next, depth);
            wants(test_of(kind), place, at, yes, no)
        }
        Way::Looping => {
            push(w, end, depth, at, 0);
            let no = stand(Mode::Skipping(1), next, depth);
            wants(test_of(kind), place, at, yes, no)
        }
        _ => {
            push(w, end, depth, at, 0);
            wants(Ask::Round, place, at, yes, yes)
        }
    }
}

// At the close of the innermost of `depth` bodies; `next` is after it.
pub fn end_body(w: &mut [u32], end: usize, next: usize, depth: usize) -> Step
    requires { AtClose w.old end next depth }
    ensures { EndsBody w.old w.new end next depth result }
{
    let j = end + (depth - 1);
    let word = w[j];
    let item = (word % 65536) as usize;
    let kind = kind_of(w, item);
    let out = stand(Mode::Running, next, depth - 1);
    let start = end_of(w, item, kind);
    let again = stand(Mode::Running, start, depth);
    let place = place_of(w, item);
    match way_of(kind) {
        Way::Counting => {
            let left = word / 65536;
            if left == 0 {
                return Step::On(out);
            }
            w[j] = word - 65536;
            wants(Ask::Round, place, item, again, again)
        }
        Way::Repeating => wants(Ask::Round, place, item, again, again),
        Way::Looping => wants(test_of(kind), place, item, again, out),
        _ => Step::On(out),
    }
}
