// How a byte of the line moves the marks of a pattern: one walk over the pattern's bytes, from the left.
#![tactic(auto)]

pub mod idle;

ghost use Rattle.std.specs.Prelude.{◌≡◌, false, cond, ◌++◌, ℕ, ◌≤◌, ◌<◌, length, drop};
ghost use Rattle.definitions.specs.WordSet.{Named};
ghost use Rattle.definitions.specs.Reader.{is_next};
ghost use Rattle.definitions.specs.Patterns.{Pattern, fits};
ghost use Rattle.text.specs.Cursors.{cursor_at};
ghost use Rattle.marks.specs.Sweeping.{never, Reads, slots, out_of, swept};
ghost use Rattle.marks.specs.Written.{after_mismatch, Names, Covers, Kind, Room, Swept, both};

use patterns::bytes::{ends_row, is_next};

// The place of a mark that is not set, and of a start that does not stand: more than each place of a line, so that the least of two needs no test of an
// Option.
pub const NEVER: u16 = u16::MAX;

// What flows through an item: where the item begins, and its first mark; and the least place where a match can have begun that has come up to the item,
// before the byte of the line is read (old) and after it (new).
#[derive(Clone, Copy)]
struct Flow {
    at: usize,
    slot: usize,
    old: u16,
    new: u16,
}

// The bytes from low to high, and where their name ends in the pattern.
#[derive(Clone, Copy)]
pub struct Bytes {
    pub low: u8,
    pub high: u8,
    pub end: usize,
}

// A character or range.
pub fn named(s: &[u8], at: usize) -> Bytes
    requires { (x : Named) × (end : ℕ) × Names s.now at x end }
    ensures { (x : Named) (end : ℕ) → Names s.now at x end → Covers x end result }
{
    let c = s[at];
    if c == b'"' {
        let x = s[at + 1];
        return Bytes {
            low: x,
            high: x,
            end: at + 2,
        };
    }
    if is_next(s, at + 1, b'-') {
        return Bytes {
            low: c,
            high: s[at + 2],
            end: at + 3,
        };
    }
    Bytes {
        low: c,
        high: c,
        end: at + 1,
    }
}

// Where a character or range begins, with or without a `~` before it.
pub fn after_mismatch(mismatch: bool, at: usize) -> usize
    requires { at < 18446744073709551615 }
    ensures { result ≡ after_mismatch mismatch at }
{
    if mismatch {
        return at + 1;
    }
    at
}

// The mark on a character or range, or on a mismatch of one, after the byte b: what stood before it, if b fits.
fn mark_after(c: Bytes, mismatch: bool, b: u8, old: u16) -> u16
    ensures { (x : Named) (end : ℕ) → Covers x end c → result ≡ cond (fits mismatch x b) old never }
{
    let named = (c.low <= b) & (b <= c.high);
    if named == mismatch {
        return NEVER;
    }
    old
}

// A character, a range or a mismatch of one.
fn single(s: &[u8], f: Flow, b: u8, marks: &mut [u16]) -> Flow
    requires { Room s.now Kind.part f marks.old × (is_next 40 (cursor_at s.now f.at) ≡ false) }
    ensures { Swept s.now Kind.part b f marks.old marks.new result }
{
    let at = f.at;
    let slot = f.slot;
    let mismatch = b'~' == s[at];
    let c = named(s, after_mismatch(mismatch, at));
    let out = marks[slot];
    let mark = mark_after(c, mismatch, b, f.old);
    marks[slot] = mark;
    Flow {
        at: c.end,
        slot: slot + 1,
        old: out,
        new: mark,
    }
}

// An item after its `#`, if it has one: alternatives in brackets, or one byte.
#[cycle(alternatives_item_part_row)]
fn part(s: &[u8], f: Flow, b: u8, marks: &mut [u16]) -> Flow
    requires { Room s.now Kind.part f marks.old }
    ensures { Swept s.now Kind.part b f marks.old marks.new result }
{
    if !is_next(s, f.at, b'(') {
        return single(s, f, b, marks);
    }
    let mut inner = f;
    inner.at += 1;
    let mut g = alternatives(s, inner, b, marks);
    g.at += 1;
    g
}

// An item. What comes past the end of an item with `#` can begin it again.
#[cycle(alternatives_item_part_row)]
fn item(s: &[u8], f: Flow, b: u8, marks: &mut [u16]) -> Flow
    requires { Room s.now Kind.item f marks.old }
    ensures { Swept s.now Kind.item b f marks.old marks.new result }
{
    if !is_next(s, f.at, b'#') {
        return part(s, f, b, marks);
    }
    let slot = f.slot;
    let again = f.old.min(marks[slot]);
    let body = part(
        s,
        Flow {
            at: f.at + 1,
            slot: slot + 1,
            old: again,
            new: NEVER,
        },
        b,
        marks,
    );
    marks[slot] = body.new;
    Flow {
        at: body.at,
        slot: body.slot,
        old: again,
        new: f.new.min(body.new),
    }
}

// A row of items.
#[cycle(alternatives_item_part_row)]
fn row(s: &[u8], f: Flow, b: u8, marks: &mut [u16]) -> Flow
    requires { Room s.now Kind.row f marks.old }
    ensures { Swept s.now Kind.row b f marks.old marks.new result }
{
    let mut g = f;
    while !ends_row(s, g.at) {
        g = item(s, g, b, marks);
    }
    g
}

// What flows out of two alternatives, of which h is the second.
fn joined(g: Flow, h: Flow) -> Flow
    ensures { result ≡ both g h }
{
    Flow {
        at: h.at,
        slot: h.slot,
        old: g.old.min(h.old),
        new: g.new.min(h.new),
    }
}

// Alternatives, each a row: what flows into the first flows into each of them. `row` is called at one place, so that the sweep of a pattern without
// brackets compiles to one function without calls.
#[cycle(alternatives_item_part_row)]
fn alternatives(s: &[u8], f: Flow, b: u8, marks: &mut [u16]) -> Flow
    requires { Room s.now Kind.alternatives f marks.old }
    ensures { Swept s.now Kind.alternatives b f marks.old marks.new result }
{
    let mut g = Flow {
        at: f.at,
        slot: f.slot,
        old: NEVER,
        new: NEVER,
    };
    loop {
        let start = Flow {
            at: g.at,
            slot: g.slot,
            old: f.old,
            new: f.new,
        };
        g = joined(g, row(s, start, b, marks));
        if !is_next(s, g.at, b'|') {
            return g;
        }
        g.at += 1;
    }
}

// The byte b moves the marks of the pattern; `enter` is what stands before the pattern. What had come past the pattern before b is handed back.
pub fn sweep(pattern: &[u8], b: u8, enter: u16, marks: &mut [u16]) -> u16
    requires { (p : Pattern) × Reads pattern.now p × (slots p ≤ length marks.old) }
    ensures { (p : Pattern) → Reads pattern.now p → (result ≡ out_of enter p marks.old) × (marks.new ≡ swept b enter p marks.old ++ drop (slots p) marks.old) }
{
    let start = Flow {
        at: 0,
        slot: 0,
        old: enter,
        new: NEVER,
    };
    let end = alternatives(pattern, start, b, marks);
    end.old
}
