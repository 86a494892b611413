// Openers: how often a count's body runs, and what a body does.
ghost use Rattle.std.specs.Prelude.{◌≡◌, ◌+◌, ◌<◌, length};
ghost use Rattle.items.specs.Kinds.{long_count_kind};
ghost use Rattle.items.specs.Words.{kind_at};
ghost use Rattle.items.specs.Ends.{way_by, times_at};

use crate::heads::{kind_of, number_of};
use crate::kinds::{COUNT, IF, IF_EOF, LONG_COUNT, REPEAT, UNLESS, UNTIL, WHILE};

// What a body does: a count of rounds, on and on, once, once if a test holds, while a test holds.
#[derive(Clone, Copy)]
pub enum Way {
    Counting,
    Repeating,
    Once,
    Branching,
    Looping,
}

// What the body of an opener of this kind does. The group after ELSE runs once.
#[tactic(auto, unfolding(crate::specs::Ends::way_by))]
pub fn way_of(kind: u32) -> Way
    ensures { result ≡ way_by kind }
{
    match kind {
        COUNT | LONG_COUNT => Way::Counting,
        REPEAT => Way::Repeating,
        IF | UNLESS | IF_EOF => Way::Branching,
        WHILE | UNTIL => Way::Looping,
        _ => Way::Once,
    }
}

// How often the body of the count at k is to run.
#[tactic(auto, unfolding(crate::specs::Ends::times_at))]
pub fn times_at(w: &[u32], k: usize) -> u32
    requires { (k < length w.now) × (kind_at w.now k ≡ long_count_kind → k + 1 < length w.now) }
    ensures { result ≡ times_at w.now k }
{
    if kind_of(w, k) == LONG_COUNT {
        return w[k + 1];
    }
    number_of(w, k)
}
