// The line numbers of M, D, I and R. A line is a number: 0 is `.`, the current one; 65,536 is `*`, EOF; others are source lines.
ghost use Rattle.std.specs.Prelude.{◌≡◌, suc, ◌≤◌, length};
ghost use Rattle.definitions.specs.Commands.{starts_target, target as «target-of», through as «through-of», line_span, optional_target};
ghost use Rattle.lexer.specs.Places.{cursor_at};
ghost use Rattle.lexer.specs.Answers.{ValueRead, NumberUpTo};
ghost use Rattle.lexer.specs.Targets.{target_of, through_of, span_of, option_of, SpanRead};

use crate::bytes::{is_digit, next_byte};
use crate::numbers::number;
use crate::spaces::skip_spaces;
use answers::{Answer, Read};

// The lines of D and R: the first one, and how far they go.
#[derive(Clone, Copy, Debug, PartialEq, Eq)]
pub struct Lines {
    pub first: usize,
    pub last: usize,
}

// Whether a line number begins at the place; `*` counts where `star` is true.
pub fn starts_target(s: &[u8], at: usize, star: bool) -> bool
    ensures { result ≡ starts_target star (cursor_at s.now at) }
{
    let b = next_byte(s, at);
    if is_digit(b) {
        return true;
    }
    if b == b'.' {
        return true;
    }
    if star { b == b'*' } else { false }
}

// A number, `.` or `*`.
pub fn target(s: &[u8], at: usize) -> Answer<usize>
    requires { at ≤ length s.now }
    ensures { ValueRead s.now target_of (NumberUpTo 65536 (suc at)) («target-of» (cursor_at s.now at)) result }
{
    let b = next_byte(s, at);
    if b == b'.' {
        return Ok(Read {
            value: 0,
            next: at + 1,
        });
    }
    if b == b'*' {
        return Ok(Read {
            value: 65536,
            next: at + 1,
        });
    }
    number(s, at)
}

// How far D goes after its first line: 0 no further, a number, or 65,536 for `*`.
pub fn through(s: &[u8], at: usize) -> Answer<usize>
    requires { at ≤ length s.now }
    ensures { ValueRead s.now through_of (NumberUpTo 65536 at) («through-of» (cursor_at s.now at)) result }
{
    let i = skip_spaces(s, at);
    let b = next_byte(s, i);
    if b == b'*' {
        return Ok(Read {
            value: 65536,
            next: i + 1,
        });
    }
    if is_digit(b) {
        return number(s, i);
    }
    Ok(Read { value: 0, next: at })
}

// The lines of D and R, where no number is the current line alone.
pub fn line_span(s: &[u8], at: usize) -> Answer<Lines>
    requires { at ≤ length s.now }
    ensures { ValueRead s.now span_of (SpanRead at) (line_span (cursor_at s.now at)) result }
{
    let i = skip_spaces(s, at);
    if !starts_target(s, i, false) {
        return Ok(Read {
            value: Lines { first: 0, last: 0 },
            next: at,
        });
    }
    let first = target(s, i)?;
    let last = through(s, first.next)?;
    Ok(Read {
        value: Lines {
            first: first.value,
            last: last.value,
        },
        next: last.next,
    })
}

// The line of I; 65,537 where none is given.
pub fn optional_target(s: &[u8], at: usize) -> Answer<usize>
    requires { at ≤ length s.now }
    ensures { ValueRead s.now option_of (NumberUpTo 65537 at) (optional_target (cursor_at s.now at)) result }
{
    let i = skip_spaces(s, at);
    if !starts_target(s, i, true) {
        return Ok(Read {
            value: 65537,
            next: at,
        });
    }
    target(s, i)
}
