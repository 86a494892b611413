// A byte that every match of a pattern has, and whether a line lacks it.
#![tactic(auto)]

ghost use Rattle.std.specs.Prelude.{◌≡◌, false, ℕ, ◌≤◌, length};
ghost use Rattle.definitions.specs.WordSet.{Named};
ghost use Rattle.definitions.specs.Reader.{is_next};
ghost use Rattle.definitions.specs.Patterns.{Pattern};
ghost use Rattle.text.specs.Cursors.{cursor_at};
ghost use Rattle.marks.specs.Sweeping.{Reads};
ghost use Rattle.marks.specs.Written.{Covers, Kind};
ghost use Rattle.needs.specs.Needing.{equal_byte, only_byte, same_byte, need_of, lacks, There, Needs};

use marks::{Bytes, after_mismatch, named};
use patterns::bytes::{ends_row, is_next};

// The place after what was read of the pattern, and a byte that every match of that has, where one is known.
#[derive(Clone, Copy)]
struct Need {
    at: usize,
    byte: Option<u8>,
}

// The byte that both are.
fn equal_byte(a: u8, b: u8) -> Option<u8>
    ensures { result ≡ equal_byte a b }
{
    if a == b {
        return Some(a);
    }
    None
}

// The byte of two that are known, where they are one.
fn same_byte(a: Option<u8>, b: Option<u8>) -> Option<u8>
    ensures { result ≡ same_byte a b }
{
    equal_byte(a?, b?)
}

// The byte that a character or range names, if it is one only.
fn only_byte(c: Bytes) -> Option<u8>
    ensures { (x : Named) (end : ℕ) → Covers x end c → result ≡ only_byte x }
{
    equal_byte(c.low, c.high)
}

// A character, a range or a mismatch of one. Many bytes fit a mismatch.
fn single(s: &[u8], at: usize) -> Need
    requires { There s.now Kind.part at × (is_next 40 (cursor_at s.now at) ≡ false) }
    ensures { Needs s.now Kind.part at result }
{
    let mismatch = b'~' == s[at];
    let c = named(s, after_mismatch(mismatch, at));
    if mismatch {
        return Need {
            at: c.end,
            byte: None,
        };
    }
    Need {
        at: c.end,
        byte: only_byte(c),
    }
}

// An item after its `#`, if it has one: alternatives in brackets, or one byte.
#[cycle(alternatives_item_part_row)]
fn part(s: &[u8], at: usize) -> Need
    requires { There s.now Kind.part at }
    ensures { Needs s.now Kind.part at result }
{
    if !is_next(s, at, b'(') {
        return single(s, at);
    }
    let inner = alternatives(s, at + 1);
    Need {
        at: inner.at + 1,
        byte: inner.byte,
    }
}

// An item. One with `#` can match no byte at all.
#[cycle(alternatives_item_part_row)]
fn item(s: &[u8], at: usize) -> Need
    requires { There s.now Kind.item at }
    ensures { Needs s.now Kind.item at result }
{
    if !is_next(s, at, b'#') {
        return part(s, at);
    }
    let mut body = part(s, at + 1);
    body.byte = None;
    body
}

// A row of items.
#[cycle(alternatives_item_part_row)]
fn row(s: &[u8], at: usize) -> Need
    requires { There s.now Kind.row at }
    ensures { Needs s.now Kind.row at result }
{
    let mut g = Need { at, byte: None };
    while !ends_row(s, g.at) {
        let next = item(s, g.at);
        g = Need {
            at: next.at,
            // the later byte is taken where it is known
            byte: next.byte.or(g.byte),
        };
    }
    g
}

// Alternatives, each a row: a byte that each of them needs.
#[cycle(alternatives_item_part_row)]
fn alternatives(s: &[u8], at: usize) -> Need
    requires { There s.now Kind.alternatives at }
    ensures { Needs s.now Kind.alternatives at result }
{
    let mut g = row(s, at);
    while is_next(s, g.at, b'|') {
        let next = row(s, g.at + 1);
        g = Need {
            at: next.at,
            byte: same_byte(g.byte, next.byte),
        };
    }
    g
}

// A byte that every match of the pattern has, where one is known.
pub fn need_of(pattern: &[u8]) -> Option<u8>
    requires { (p : Pattern) × Reads pattern.now p }
    ensures { (p : Pattern) → Reads pattern.now p → result ≡ need_of p }
{
    let whole = alternatives(pattern, 0);
    whole.byte
}

// Is the byte known, and not among those of a part of a line. No way leads out of the loop, so that many bytes are looked at at once.
pub fn lacks_byte(need: Option<u8>, bytes: &[u8]) -> bool
    ensures { result ≡ lacks need bytes.now }
{
    let Some(need) = need else {
        return false;
    };
    let mut without = true;
    for b in bytes {
        without = without & (*b != need);
    }
    without
}
