// Search expressions. The reader writes each part's words into the work area, in the order in which they are tested.
#![tactic(auto)]

ghost use Rattle.std.specs.Prelude.{◌≡◌, ◌+◌, ◌-◌, ◌*◌, ◌≤◌, ◌<◌, length};
ghost use Rattle.definitions.specs.Strings.{operator as «operator-of», part as «part_of», conjunction as «conjunction-of», alternatives as «alternatives-of», search_expression};
ghost use Rattle.lexer.specs.Places.{cursor_at};
ghost use Rattle.searches.specs.Parsing.{right_of, RightOn, Closes, string_part, SearchRoom, Parsed};

use answers::{Answer, Fault, Read, Refusal};
use lexer::bytes::next_byte;
use lexer::spaces::{skip_blank, skip_spaces};
use matching::search::put_string;
use strings::qualified_string;

// Where the right part of the operator b begins, if that is the next thing but for spaces, comments and line ends, which may also follow it.
fn operator(s: &[u8], at: usize, b: u8) -> Option<usize>
    requires { (at ≤ length s.now) × (0 < b) }
    ensures operator { right_of s.now result ≡ «operator-of» b (cursor_at s.now at) }
    ensures right { RightOn at (length s.now) result }
{
    let i = skip_blank(s, at);
    if s.len() <= i {
        return None;
    }
    if s[i] != b {
        return None;
    }
    Some(skip_blank(s, i + 1))
}

// The closing bracket. 5 at the script's length where nothing is left, else 3 at what stands there.
fn closing(s: &[u8], at: usize) -> Result<usize, Refusal>
    requires { at ≤ length s.now }
    ensures { Closes s.now at result }
{
    let i = skip_spaces(s, at);
    if next_byte(s, i) == b')' {
        return Ok(i + 1);
    }
    let end = skip_blank(s, i);
    if s.len() <= end {
        return Err(Fault::Bracket.at(end));
    }
    Err(Fault::Argument.at(i))
}

// One qualified string. What is answered of a search is the next free word.
fn string_part(s: &[u8], at: usize, w: &mut [u32], k: usize) -> Answer<usize>
    requires { SearchRoom s.now w.old at k }
    ensures { Parsed s.now w.old w.new at k 0 (λ n. string_part (cursor_at s.now at)) result }
{
    let string = qualified_string(s, at, true)?;
    let part = string.value.part;
    let m = put_string(w, k, string.value.quals, part.start, part.end - part.start);
    Ok(Read {
        value: m,
        next: string.next,
    })
}

// The word between two parts: m is where the test goes on if it is settled by the first, kind 1 for & and 2 for |.
fn joint(m: usize, kind: u32) -> u32
    requires { (m ≤ 1073741823) × (kind ≤ 3) }
    ensures { result ≡ 4 * m + kind }
{
    4 * (m as u32) + kind
}

// A bracketed part, `deep` brackets being left, or one qualified string.
#[cycle(alternatives_conjunction_part)]
fn part(s: &[u8], at: usize, w: &mut [u32], k: usize, deep: usize) -> Answer<usize>
    requires { SearchRoom s.now w.old at k }
    ensures { Parsed s.now w.old w.new at k (3 * (length s.now - at) + 1) (λ n. «part_of» n deep (cursor_at s.now at)) result }
{
    let i = skip_spaces(s, at);
    if next_byte(s, i) != b'(' {
        return string_part(s, at, w, k);
    }
    if deep == 0 {
        return Err(Fault::Bracket.at(i));
    }
    let inner = alternatives(s, i + 1, w, k, deep - 1)?;
    let next = closing(s, inner.next)?;
    Ok(Read {
        value: inner.value,
        next,
    })
}

// Parts joined by &. Document 01 asks that parts, conjunctions and alternatives call each other; so each of the two has its loop.
#[cycle(alternatives_conjunction_part)]
fn conjunction(s: &[u8], at: usize, w: &mut [u32], k: usize, deep: usize) -> Answer<usize>
    requires { SearchRoom s.now w.old at k }
    ensures { Parsed s.now w.old w.new at k (3 * (length s.now - at) + 2) (λ n. «conjunction-of» n deep (cursor_at s.now at)) result }
{
    let mut left = part(s, at, w, k, deep)?;
    while let Some(next) = operator(s, left.next, b'&') {
        let right = part(s, next, w, left.value + 1, deep)?;
        w[left.value] = joint(right.value, 1);
        left = right;
    }
    Ok(left)
}

// Conjunctions joined by |.
#[cycle(alternatives_conjunction_part)]
fn alternatives(s: &[u8], at: usize, w: &mut [u32], k: usize, deep: usize) -> Answer<usize>
    requires { SearchRoom s.now w.old at k }
    ensures { Parsed s.now w.old w.new at k (3 * (length s.now - at) + 3) (λ n. «alternatives-of» n deep (cursor_at s.now at)) result }
{
    let mut left = conjunction(s, at, w, k, deep)?;
    while let Some(next) = operator(s, left.next, b'|') {
        let right = conjunction(s, next, w, left.value + 1, deep)?;
        w[left.value] = joint(right.value, 2);
        left = right;
    }
    Ok(left)
}

// A search expression at the place: its words from k on.
pub fn search(s: &[u8], at: usize, w: &mut [u32], k: usize) -> Answer<usize>
    requires { SearchRoom s.now w.old at k }
    ensures { Parsed s.now w.old w.new at k 0 (λ n. search_expression (cursor_at s.now at)) result }
{
    part(s, at, w, k, 8)
}
