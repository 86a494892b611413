// Arguments in words: lines' numbers, and strings of the script.
ghost use Rattle.std.specs.Prelude.{◌≡◌, ◌-◌, ◌≤◌, ◌<◌};
ghost use Rattle.items.specs.Words.{head_with, string_word};
ghost use Rattle.items.specs.Arguments.{string_start, string_length, span_number, span_word, span_from, span_through, spot_word};

use crate::heads::head_with;

// The word of a string: where it starts, and its length.
pub fn string_word(start: usize, end: usize) -> u32
    requires { (start ≤ end) × (end ≤ 16384) }
    ensures { result ≡ string_word start (end - start) }
{
    start as u32 + 32768 * ((end - start) as u32)
}

pub fn string_start(word: u32) -> usize
    ensures { result ≡ string_start word }
{
    (word % 32768) as usize
}

pub fn string_length(word: u32) -> usize
    ensures { result ≡ string_length word }
{
    (word / 32768) as usize
}

// The lines of D and R, from a to b: the number in the first word is 1 where b is EOF, 65,536.
#[tactic(auto, unfolding(crate::specs::Arguments::span_number))]
fn span_number(b: usize) -> u32
    ensures { (result ≡ span_number b) × (result < 512) }
{
    u32::from(b == 65536)
}

// The first word of D or R.
pub fn span_head(kind: u32, place: usize, b: usize) -> u32
    requires { (kind < 256) × (place ≤ 16384) }
    ensures { result ≡ head_with kind place (span_number b) }
{
    head_with(kind, place, span_number(b))
}

// The second word: the first line, and the last one where it is numbered.
#[tactic(auto, unfolding(crate::specs::Arguments::span_word))]
pub fn span_word(a: usize, b: usize) -> u32
    requires { (a < 65536) × (b ≤ 65536) }
    ensures { result ≡ span_word a b }
{
    if b == 65536 {
        return a as u32;
    }
    a as u32 + 65536 * (b as u32)
}

// Where D or R begins.
pub fn span_from(word: u32) -> usize
    ensures { result ≡ span_from word }
{
    (word % 65536) as usize
}

// How far it goes, by the number in the first word and the second word: 0 for one line, 65,536 for `*`.
#[tactic(auto, unfolding(crate::specs::Arguments::span_through))]
pub fn span_through(n: u32, word: u32) -> usize
    ensures { result ≡ span_through n word }
{
    if n == 1 {
        return 65536;
    }
    (word / 65536) as usize
}

// The word of I's line: 0 where none is given, 65,537.
#[tactic(auto, unfolding(crate::specs::Arguments::spot_word))]
pub fn spot_word(a: usize) -> u32
    requires { a ≤ 65537 }
    ensures { result ≡ spot_word a }
{
    if a == 65537 {
        return 0;
    }
    a as u32 + 1
}
