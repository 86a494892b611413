// Strings: up to the delimiter or the line's end.
ghost use Rattle.std.specs.Prelude.{◌≡◌, ◌≤◌, length};
ghost use Rattle.definitions.specs.Reader.{string_next, advance, past_delimiter, quoted as «quoted-of»};
ghost use Rattle.text.specs.Lines.{part};
ghost use Rattle.lexer.specs.Places.{cursor_at};
ghost use Rattle.lexer.specs.Answers.{ValueRead, part_in, QuotedRead};

use crate::bytes::{is_delimiter, next_byte};
use answers::{Answer, Fault, Part, Read};
use scans::{Kind, past};

// The end of the string that begins at the place: its delimiter d, or the line's end where that is missing.
pub fn string_end(s: &[u8], at: usize, d: u8) -> usize
    requires { at ≤ length s.now }
    ensures text { string_next d (cursor_at s.now at) ≡ part at result s.now }
    ensures place { advance (length (string_next d (cursor_at s.now at))) (cursor_at s.now at) ≡ cursor_at s.now result }
    ensures within { (at ≤ result) × (result ≤ length s.now) }
{
    past(s, at, s.len(), Kind::Neither(d, 10))
}

// Past the closing delimiter, if it stands there.
pub fn past_delimiter(s: &[u8], at: usize, d: u8) -> usize
    requires { at ≤ length s.now }
    ensures place { past_delimiter d (cursor_at s.now at) ≡ cursor_at s.now result }
    ensures within { (at ≤ result) × (result ≤ length s.now) }
{
    if at < s.len() {
        if s[at] == d {
            return at + 1;
        }
    }
    at
}

// A string with its delimiters: the part of the script that it is. Where no delimiter stands, 3 there.
pub fn quoted(s: &[u8], at: usize) -> Answer<Part>
    requires { at ≤ length s.now }
    ensures { ValueRead s.now (part_in s.now) (QuotedRead at) («quoted-of» (cursor_at s.now at)) result }
{
    let d = next_byte(s, at);
    if !is_delimiter(d) {
        return Err(Fault::Argument.at(at));
    }
    let start = at + 1;
    let end = string_end(s, start, d);
    let next = past_delimiter(s, end, d);
    Ok(Read {
        value: Part { start, end },
        next,
    })
}
