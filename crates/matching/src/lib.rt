// Qualified strings and patterns, and where they occur on a line.
#![tactic(auto)]

mod pattern;
mod place;
mod scan;
pub mod search;
mod window;

ghost use Rattle.std.specs.Prelude.{◌≡◌, ◌+◌, ◌≤◌, length};
ghost use Rattle.definitions.specs.Matching.{text, qualified, stands_at, only_at, with_width, match_of, matches};
ghost use Rattle.wordset.specs.Sets.{in_set};
ghost use Rattle.taking.specs.Ways.{found_of};
ghost use Rattle.matching.specs.Quals.{plain, qualifiers_of, Formed, string_in};

use pattern::find_pattern;
use place::stands;
use scan::{from_left, from_right};
pub use taking::Found;
use window::text_of;

// The qualifiers of a string. anchor: 0 none, 1 for B, 2 for E, 3 for P. count: 0 for none; where R is given, which stands with no count, the bytes that a
// match can begin with: the first of them, and 256 times the last. from: 0 for all columns. pattern: is R given.
#[derive(Clone, Copy)]
pub struct Quals {
    pub anchor: u8,
    pub count: usize,
    pub last: bool,
    pub negated: bool,
    pub word: bool,
    pub fold: bool,
    pub skip: bool,
    pub from: usize,
    pub to: usize,
    pub pattern: bool,
}

// No qualifiers.
pub fn no_qualifiers() -> Quals
    ensures { result ≡ plain }
{
    Quals {
        anchor: 0,
        count: 0,
        last: false,
        negated: false,
        word: false,
        fold: false,
        skip: false,
        from: 0,
        to: 0,
        pattern: false,
    }
}

// The text that is searched: a part of the line.
#[derive(Clone, Copy)]
pub struct Span {
    pub start: usize,
    pub end: usize,
}

// The occurrence at one place only.
fn only_at(set: &[u32], line: &[u8], s: &[u8], at: usize, word: bool, fold: bool) -> Option<Found>
    requires { (3 ≤ length set.now) × (at + length s.now ≤ length line.now) }
    ensures { found_of result ≡ with_width (length s.now) (only_at (stands_at (in_set set.now 0) word fold s.now line.now at) at) }
{
    if stands(set, line, s, at, word, fold) {
        Some(Found { at, width: s.len() })
    } else {
        None
    }
}

// The part of the text from start to end that the string matches, R not given.
fn find_string(
    set: &[u32],
    line: &[u8],
    start: usize,
    end: usize,
    q: Quals,
    s: &[u8],
) -> Option<Found>
    requires { (3 ≤ length set.now) × (start ≤ end) × (end ≤ length line.now) }
    ensures { found_of result ≡ string_in (in_set set.now 0) q s.now line.now (text start end) }
{
    if end - start < s.len() {
        return None;
    }
    if q.anchor == 0 {
        if q.last {
            return from_right(set, line, s, start, end, q.count, q.word, q.fold);
        }
        return from_left(set, line, s, start, end, q.count, q.word, q.fold);
    }
    if q.anchor == 1 {
        return only_at(set, line, s, start, q.word, q.fold);
    }
    if q.anchor == 2 {
        return only_at(set, line, s, end - s.len(), q.word, q.fold);
    }
    if end - start == s.len() {
        return only_at(set, line, s, start, q.word, q.fold);
    }
    None
}

// The part of the line that the qualified string matches, with the window from p, where the bytes of the set count for W. N is not looked at.
pub fn find(set: &[u32], line: &[u8], p: usize, q: Quals, s: &[u8]) -> Option<Found>
    requires { (3 ≤ length set.now) × (p ≤ length line.now) × Formed q s.now × (length line.now ≤ 255) × (length s.now ≤ 255) }
    ensures { found_of result ≡ match_of (in_set set.now 0) (qualified (qualifiers_of q) s.now) p line.now }
{
    let t = text_of(line, p, q);
    let start = t.start;
    let end = t.end;
    if q.pattern {
        return find_pattern(set, line, start, end, q, s);
    }
    find_string(set, line, start, end, q, s)
}

// Does the qualified string match the line, N included.
pub fn matches_line(set: &[u32], line: &[u8], p: usize, q: Quals, s: &[u8]) -> bool
    requires { (3 ≤ length set.now) × (p ≤ length line.now) × Formed q s.now × (length line.now ≤ 255) × (length s.now ≤ 255) }
    ensures { result ≡ matches (in_set set.now 0) (qualified (qualifiers_of q) s.now) p line.now }
{
    find(set, line, p, q, s).is_some() != q.negated
}
