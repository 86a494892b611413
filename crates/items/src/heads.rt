// An item's first word: its kind, its place and a small number.
ghost use Rattle.std.specs.Prelude.{◌≡◌, ◌≤◌, ◌<◌, length};
ghost use Rattle.items.specs.Kinds.{shape_of, is_global};
ghost use Rattle.items.specs.Words.{head as «head_of», head_with, kind_at, place_at, number_at};

use crate::kinds::{GLOBAL_AFTER, GLOBAL_BEFORE, GLOBAL_EXCHANGE};

// A first word without a number.
pub fn head(kind: u32, place: usize) -> u32
    requires { (kind < 256) × (place ≤ 16384) }
    ensures { result ≡ «head_of» kind place }
{
    kind + 256 * (place as u32)
}

// A first word with a number.
pub fn head_with(kind: u32, place: usize, n: u32) -> u32
    requires { (kind < 256) × (place ≤ 16384) × (n < 512) }
    ensures { result ≡ head_with kind place n }
{
    kind + 256 * (place as u32) + 8388608 * n
}

// The kind of the item at k.
pub fn kind_of(w: &[u32], k: usize) -> u32
    requires { k < length w.now }
    ensures { result ≡ kind_at w.now k }
{
    w[k] % 256
}

// Its place.
pub fn place_of(w: &[u32], k: usize) -> usize
    requires { k < length w.now }
    ensures { result ≡ place_at w.now k }
{
    (w[k] / 256 % 32768) as usize
}

// Its number.
pub fn number_of(w: &[u32], k: usize) -> u32
    requires { k < length w.now }
    ensures { result ≡ number_at w.now k }
{
    w[k] / 8388608
}

pub fn shape_of(kind: u32) -> u32
    ensures { result ≡ shape_of kind }
{
    kind / 16
}

// GA, GB and GE, among the kinds of a change's shape.
#[tactic(auto, unfolding(crate::specs::Kinds::is_global))]
pub fn is_global(kind: u32) -> bool
    ensures { result ≡ is_global kind }
{
    matches!(kind, GLOBAL_AFTER | GLOBAL_BEFORE | GLOBAL_EXCHANGE)
}
