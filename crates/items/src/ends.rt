// What an item is, and where it ends.
ghost use Rattle.std.specs.Prelude.{◌≡◌, false, List, ℕ, ◌+◌, ◌≤◌, ◌<◌, length};
ghost use Rattle.definitions.specs.Control.{Item};
ghost use Rattle.items.specs.Kinds.{shape_of};
ghost use Rattle.items.specs.Words.{ItemAt};
ghost use Rattle.items.specs.Ends.{mark_by, class_by, end_by, is_one_word, seen_at};

use crate::heads::{kind_of, shape_of};
use crate::kinds::{
    BRACKET, CHANGES, CLOSE, ELSE, FOURS, LINE_END, LONG_OPENERS, MARKS, OPENERS, PAIRS, SEARCHES,
    STRINGS, TESTS,
};
use matching::search::end_at;

// What an item is.
#[derive(Clone, Copy)]
pub enum Class {
    // A mark of the script's structure, or AGP.
    LineEnd,
    Bracket,
    Close,
    Else,
    Agp,
    // A simple command.
    Simple,
    // A search.
    Seeks,
    // An opener.
    Opens,
}

// What an item is, and where it ends.
#[derive(Clone, Copy)]
pub struct Seen {
    pub class: Class,
    pub next: usize,
}

// What a mark of this kind is.
#[tactic(auto, unfolding(crate::specs::Ends::mark_by))]
fn mark_of(kind: u32) -> Class
    ensures { result ≡ mark_by kind }
{
    match kind {
        LINE_END => Class::LineEnd,
        BRACKET => Class::Bracket,
        CLOSE => Class::Close,
        ELSE => Class::Else,
        _ => Class::Agp,
    }
}

// What an item of this kind is.
#[tactic(auto, unfolding(crate::specs::Ends::class_in))]
fn class_of(kind: u32) -> Class
    ensures { result ≡ class_by kind }
{
    match shape_of(kind) {
        MARKS => mark_of(kind),
        SEARCHES => Class::Seeks,
        TESTS | OPENERS | LONG_OPENERS => Class::Opens,
        _ => Class::Simple,
    }
}

// Where the item of this kind at k ends.
#[tactic(auto, unfolding(crate::specs::Ends::end_in, crate::specs::Ends::is_one_word))]
pub fn end_of(w: &[u32], k: usize, kind: u32) -> usize
    requires { (k < length w.now) × (is_one_word (shape_of kind) ≡ false → k + 1 < length w.now) }
    ensures { result ≡ end_by w.now k kind }
{
    match shape_of(kind) {
        PAIRS | LONG_OPENERS => k + 2,
        FOURS => k + 4,
        STRINGS => end_at(w, k + 1),
        CHANGES => end_at(w, k + 1) + 1,
        SEARCHES | TESTS => w[k + 1] as usize,
        _ => k + 1,
    }
}

// What the item at k is, and where it ends.
pub fn here(w: &[u32], k: usize) -> Seen
    requires { (s : List ℕ) × (m : ℕ) × (i : Item) × ItemAt s w.now k m i × (m ≤ length w.now) }
    ensures { result ≡ seen_at w.now k }
{
    let kind = kind_of(w, k);
    Seen {
        class: class_of(kind),
        next: end_of(w, k, kind),
    }
}
