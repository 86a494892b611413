// The string at a place of the line.
ghost use Rattle.std.specs.Prelude.{◌≡◌, true, false, ◌+◌, ◌≤◌, length, drop};
ghost use Rattle.definitions.specs.Matching.{stands_first, is_apart, stands_at};
ghost use Rattle.wordset.specs.Sets.{in_set};

use text::upper;
use wordset::beside::{is_free_at, is_free_before};

// No byte of the set stands before i or at j, in the whole line.
fn apart(set: &[u32], line: &[u8], i: usize, j: usize) -> bool
    requires { (3 ≤ length set.now) × (i ≤ length line.now) }
    ensures { result ≡ is_apart (in_set set.now 0) true line.now i j }
{
    is_free_before(set, line, i) && is_free_at(set, line, j)
}

// The string stands in the line at `at`. Byte by byte: with == on slices sixteen globals take 14 % more instructions, as most strings are short.
fn same(line: &[u8], s: &[u8], at: usize) -> bool
    requires { at + length s.now ≤ length line.now }
    ensures { result ≡ stands_first false s.now (drop at line.now) }
{
    for (k, b) in s.iter().enumerate() {
        if *b != line[at + k] {
            return false;
        }
    }
    true
}

// The string stands in the line at `at`, small letters taken as capitals.
fn same_folded(line: &[u8], s: &[u8], at: usize) -> bool
    requires { at + length s.now ≤ length line.now }
    ensures { result ≡ stands_first true s.now (drop at line.now) }
{
    for (k, b) in s.iter().enumerate() {
        if upper(*b) != upper(line[at + k]) {
            return false;
        }
    }
    true
}

// The string stands in the line at `at`, as U asks.
fn starts(line: &[u8], s: &[u8], at: usize, fold: bool) -> bool
    requires { at + length s.now ≤ length line.now }
    ensures { result ≡ stands_first fold s.now (drop at line.now) }
{
    if fold {
        return same_folded(line, s, at);
    }
    same(line, s, at)
}

// The string occurs in the line at `at`, as W and U ask, where the bytes of the set count for W.
pub fn stands(set: &[u32], line: &[u8], s: &[u8], at: usize, word: bool, fold: bool) -> bool
    requires { (3 ≤ length set.now) × (at + length s.now ≤ length line.now) }
    ensures { result ≡ stands_at (in_set set.now 0) word fold s.now line.now at }
{
    if !starts(line, s, at, fold) {
        return false;
    }
    if word {
        return apart(set, line, at, at + s.len());
    }
    true
}
