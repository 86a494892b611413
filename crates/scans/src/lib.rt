// Scans of a slice: how far the bytes from a place on are of one kind. What the readers of scripts, lines and cases share.
#![tactic(auto)]

ghost use Rattle.std.specs.Prelude.{◌≡◌, ◌+◌, ◌-◌, ◌≤◌, length, drop, eqb};
ghost use Rattle.scans.specs.Leading.{leading, is_of};

use text::upper;

// A kind of bytes: data, not a closure, since contracts name it.
#[derive(Clone, Copy)]
pub enum Kind {
    // This byte.
    Only(u8),
    // Every other byte.
    Not(u8),
    // Every byte that is another one when it is upper-cased.
    NotFolded(u8),
    // These two bytes.
    Either(u8, u8),
    // Every byte but these two.
    Neither(u8, u8),
}

fn is_of(kind: Kind, b: u8) -> bool
    ensures { result ≡ is_of kind b }
{
    match kind {
        Kind::Only(a) => b == a,
        Kind::Not(a) => b != a,
        Kind::NotFolded(a) => upper(b) != a,
        Kind::Either(a, c) => b == a || b == c,
        Kind::Neither(a, c) => b != a && b != c,
    }
}

// The place after the bytes of a kind that stand from `at` on, at most `end`: byte by byte, for runs that are short.
pub fn past(s: &[u8], at: usize, end: usize, kind: Kind) -> usize
    requires { (at ≤ end) × (end ≤ length s.now) }
    ensures { (result ≡ at + leading (is_of kind) (end - at) (drop at s.now)) × (result ≤ end) }
{
    let mut i = at;
    while i < end {
        if !is_of(kind, s[i]) {
            return i;
        }
        i += 1;
    }
    i
}

// Whether bytes are all of a kind. No way leads out of the fold, so that eight are looked at at once.
fn all_are_of(s: &[u8], kind: Kind) -> bool
    ensures { result ≡ eqb (leading (is_of kind) (length s.now) s.now) (length s.now) }
{
    s.iter().fold(true, |all, b| all & is_of(kind, *b))
}

// The same place for runs that may be long: eight bytes at a time. The last eight are those before `end`, where fewer are left: some are then looked at twice, which no iterator over chunks does.
pub fn past_long(s: &[u8], at: usize, end: usize, kind: Kind) -> usize
    requires { (at ≤ end) × (end ≤ length s.now) }
    ensures { (result ≡ at + leading (is_of kind) (end - at) (drop at s.now)) × (result ≤ end) }
{
    let mut i = at;
    if 8 <= end {
        while i < end {
            let from = i.min(end - 8);
            if !all_are_of(&s[from..from + 8], kind) {
                break;
            }
            i = from + 8;
        }
    }
    past(s, i, end, kind)
}
