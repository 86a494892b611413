// Patterns, for the qualifier R: is a string one, or which byte cannot stand in it. All of the string is the pattern.
#![tactic(auto)]

pub mod bytes;

ghost use Rattle.std.specs.Prelude.{◌≡◌, false, suc, ◌+◌, ◌≤◌, ◌<◌, length};
ghost use Rattle.definitions.specs.Patterns.{is_sign, range_end, after_plain, after_quote, read_character, read_single};
ghost use Rattle.text.specs.Cursors.{cursor_at};
ghost use Rattle.patterns.specs.Reading.{past-to, Reads, ReadsEither, PartReads, ItemReads, RowReads, AlternativesRead, ClosedBy, Forms};

use bytes::{ends_row, is_next};
use wordset::is_range;

// A part that is found: the place after it, and is it blank (alternatives that are all empty).
#[derive(Clone, Copy)]
struct Past {
    next: usize,
    blank: bool,
}

impl Past {
    // A part that is not blank.
    fn solid(next: usize) -> Past
        ensures { result ≡ past-to next false }
    {
        Past { next, blank: false }
    }
}

// The place of the first byte that cannot stand, which may be the string's end.
#[derive(Clone, Copy, Debug, PartialEq, Eq)]
pub struct Fault {
    pub at: usize,
}

// | ( ) ~ # - "
fn is_sign(b: u8) -> bool
    ensures { result ≡ is_sign b }
{
    (b == b'|') | (b == b'(') | (b == b')') | (b == b'~') | (b == b'#') | (b == b'-') | (b == b'"')
}

// After a and the `-` at a place: the range's last byte must stand.
fn range_end(s: &[u8], minus: usize, a: u8) -> Result<Past, Fault>
    requires { minus < length s.now }
    ensures { ReadsEither s.now (minus + 1) (λ mismatch. range_end mismatch a (cursor_at s.now (minus + 1))) result }
{
    let at = minus + 1;
    if s.len() <= at {
        return Err(Fault { at });
    }
    if is_range(a, s[at]) {
        return Ok(Past::solid(at + 1));
    }
    Err(Fault { at })
}

// After the byte a, which is not quoted: the range that it begins, or nothing more.
fn after_plain(s: &[u8], at: usize, a: u8) -> Result<Past, Fault>
    requires { at ≤ length s.now }
    ensures { ReadsEither s.now at (λ mismatch. after_plain mismatch a (cursor_at s.now at)) result }
{
    if !is_next(s, at, b'-') {
        return Ok(Past::solid(at));
    }
    // Only a digit or a letter begins one.
    if !a.is_ascii_alphanumeric() {
        return Ok(Past::solid(at));
    }
    range_end(s, at, a)
}

// After `"`: any byte must stand.
fn after_quote(s: &[u8], at: usize) -> Result<Past, Fault>
    requires { at ≤ length s.now }
    ensures { ReadsEither s.now at (λ mismatch. after_quote mismatch (cursor_at s.now at)) result }
{
    if at >= s.len() {
        return Err(Fault { at });
    }
    Ok(Past::solid(at + 1))
}

// A character or a range must stand.
fn character(s: &[u8], at: usize) -> Result<Past, Fault>
    requires { at ≤ length s.now }
    ensures { ReadsEither s.now (suc at) (λ mismatch. read_character mismatch (cursor_at s.now at)) result }
{
    if s.len() <= at {
        return Err(Fault { at });
    }
    let b = s[at];
    if b == b'"' {
        return after_quote(s, at + 1);
    }
    if is_sign(b) {
        return Err(Fault { at });
    }
    after_plain(s, at + 1, b)
}

// The same, perhaps with `~` before it.
fn single(s: &[u8], at: usize) -> Result<Past, Fault>
    requires { at ≤ length s.now }
    ensures { Reads s.now (suc at) (read_single (cursor_at s.now at)) result }
{
    if is_next(s, at, b'~') {
        return character(s, at + 1);
    }
    character(s, at)
}

// The `)` of a bracket, whose alternatives are blank or not.
fn close_bracket(s: &[u8], at: usize, blank: bool) -> Result<Past, Fault>
    requires { at ≤ length s.now }
    ensures { ClosedBy blank s.now at result }
{
    if !is_next(s, at, b')') {
        return Err(Fault { at });
    }
    if blank {
        return Err(Fault { at });
    }
    Ok(Past::solid(at + 1))
}

// A bracket, `deep` of them being left, or a character, a range or a mismatch.
#[cycle(alternatives_item_part_row)]
fn part(s: &[u8], at: usize, deep: usize) -> Result<Past, Fault>
    requires { at ≤ length s.now }
    ensures { PartReads s.now at deep result }
{
    if !is_next(s, at, b'(') {
        return single(s, at);
    }
    if deep == 0 {
        return Err(Fault { at });
    }
    let inner = alternatives(s, at + 1, deep - 1)?;
    close_bracket(s, inner.next, inner.blank)
}

// A part, perhaps with `#` before it.
#[cycle(alternatives_item_part_row)]
fn item(s: &[u8], at: usize, deep: usize) -> Result<Past, Fault>
    requires { at ≤ length s.now }
    ensures { ItemReads s.now at deep result }
{
    if !is_next(s, at, b'#') {
        return part(s, at, deep);
    }
    let one = part(s, at + 1, deep)?;
    Ok(Past::solid(one.next))
}

// Items one after another, perhaps none.
#[cycle(alternatives_item_part_row)]
fn row(s: &[u8], at: usize, deep: usize) -> Result<Past, Fault>
    requires { at ≤ length s.now }
    ensures { RowReads s.now at deep result }
{
    let mut i = at;
    let mut blank = true;
    loop {
        if ends_row(s, i) {
            return Ok(Past { next: i, blank });
        }
        let one = item(s, i, deep)?;
        i = one.next;
        blank = false;
    }
}

// Rows with `|` between them.
#[cycle(alternatives_item_part_row)]
fn alternatives(s: &[u8], at: usize, deep: usize) -> Result<Past, Fault>
    requires { at ≤ length s.now }
    ensures { AlternativesRead s.now at deep result }
{
    let mut i = at;
    let mut blank = true;
    loop {
        let one = row(s, i, deep)?;
        blank = blank & one.blank;
        if !is_next(s, one.next, b'|') {
            return Ok(Past {
                next: one.next,
                blank,
            });
        }
        i = one.next + 1;
    }
}

// Is the string a pattern.
pub fn read(s: &[u8]) -> Result<(), Fault>
    ensures { Forms s.now result }
{
    let all = alternatives(s, 0, 8)?;
    if all.next < s.len() || all.blank {
        return Err(Fault { at: all.next });
    }
    Ok(())
}
