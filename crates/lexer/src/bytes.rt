// Kinds of bytes, and the byte at a place.
ghost use Rattle.std.specs.Prelude.{◌≡◌, ◌≤◌, ◌<◌, length};
ghost use Rattle.definitions.specs.Bytes.{is_digit, is_letter};
ghost use Rattle.definitions.specs.Reader.{next_byte, is_delimiter, expect as «expect-of»};
ghost use Rattle.lexer.specs.Places.{cursor_at};
ghost use Rattle.lexer.specs.Answers.{PastRead, OneByte};

use answers::{Fault, Refusal};

pub fn is_digit(b: u8) -> bool
    ensures { result ≡ is_digit b }
{
    b.is_ascii_digit()
}

pub fn is_letter(b: u8) -> bool
    ensures { result ≡ is_letter b }
{
    b.is_ascii_alphabetic()
}

pub fn is_delimiter(b: u8) -> bool
    ensures { result ≡ is_delimiter b }
{
    match b {
        b'!' | b'\'' | b'*'..=b'/' | b':' | b'?' => true,
        _ => false,
    }
}

// The byte at a place; 0, which no script has, at the end.
pub fn next_byte(s: &[u8], at: usize) -> u8
    ensures { result ≡ next_byte (cursor_at s.now at) }
{
    if at < s.len() { s[at] } else { 0 }
}

// The byte b must stand at the place, else 3 there.
pub fn expect(s: &[u8], at: usize, b: u8) -> Result<usize, Refusal>
    requires { (at ≤ length s.now) × (0 < b) }
    ensures { PastRead s.now (OneByte at) («expect-of» b (cursor_at s.now at)) result }
{
    if at < s.len() {
        if s[at] == b {
            return Ok(at + 1);
        }
    }
    Err(Fault::Argument.at(at))
}
