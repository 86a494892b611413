// The bytes beside a place of a line, which W looks at.
ghost use Rattle.std.specs.Prelude.{◌≡◌, not, ◌≤◌, length, get_or};
ghost use Rattle.definitions.specs.Matching.{byte_before};
ghost use Rattle.wordset.specs.Sets.{in_set};

use super::is_in;

// The byte before i; 0 at the line's start.
fn byte_before(line: &[u8], i: usize) -> u8
    requires { i ≤ length line.now }
    ensures { result ≡ byte_before line.now i }
{
    if i == 0 {
        return 0;
    }
    line[i - 1]
}

// The byte at i; 0 at the line's end.
fn byte_at(line: &[u8], i: usize) -> u8
    ensures { result ≡ get_or line.now i 0 }
{
    if i < line.len() { line[i] } else { 0 }
}

// No byte of the set stands before i in the line.
pub fn is_free_before(set: &[u32], line: &[u8], i: usize) -> bool
    requires { (3 ≤ length set.now) × (i ≤ length line.now) }
    ensures { result ≡ not (in_set set.now 0 (byte_before line.now i)) }
{
    !is_in(set, byte_before(line, i))
}

// No byte of the set stands at i in the line.
pub fn is_free_at(set: &[u32], line: &[u8], i: usize) -> bool
    requires { 3 ≤ length set.now }
    ensures { result ≡ not (in_set set.now 0 (get_or line.now i 0)) }
{
    !is_in(set, byte_at(line, i))
}
