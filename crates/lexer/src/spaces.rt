// Spaces, comments and line ends.
ghost use Rattle.std.specs.Prelude.{◌≡◌, ◌≤◌, length};
ghost use Rattle.definitions.specs.Reader.{skip_spaces, skip_comment, skip_blank};
ghost use Rattle.lexer.specs.Places.{cursor_at};

use crate::bytes::next_byte;
use scans::{Kind, past};

// Past the spaces.
pub fn skip_spaces(s: &[u8], at: usize) -> usize
    requires { at ≤ length s.now }
    ensures place { skip_spaces (cursor_at s.now at) ≡ cursor_at s.now result }
    ensures within { (at ≤ result) × (result ≤ length s.now) }
{
    past(s, at, s.len(), Kind::Only(32))
}

// To the line's end, where its LF stands.
pub fn skip_comment(s: &[u8], at: usize) -> usize
    requires { at ≤ length s.now }
    ensures place { skip_comment (cursor_at s.now at) ≡ cursor_at s.now result }
    ensures within { (at ≤ result) × (result ≤ length s.now) }
{
    past(s, at, s.len(), Kind::Not(10))
}

// Past spaces, comments and line ends.
pub fn skip_blank(s: &[u8], at: usize) -> usize
    requires { at ≤ length s.now }
    ensures place { skip_blank (cursor_at s.now at) ≡ cursor_at s.now result }
    ensures within { (at ≤ result) × (result ≤ length s.now) }
{
    let mut i = at;
    loop {
        i = past(s, i, s.len(), Kind::Either(32, 10));
        // A backslash starts a comment.
        if next_byte(s, i) != 92 {
            return i;
        }
        i = past(s, i, s.len(), Kind::Not(10));
    }
}
