// THEN and ELSE, which may stand after spaces.
ghost use Rattle.std.specs.Prelude.{◌≡◌, ◌≤◌, length};
ghost use Rattle.definitions.specs.Commands.{skip_then};
ghost use Rattle.lexer.specs.Places.{cursor_at};
ghost use Rattle.lexer.specs.Words.{ElseRead};

use crate::names::name;
use crate::spaces::skip_spaces;

// Past THEN, if it stands there.
pub fn skip_then(s: &[u8], at: usize) -> usize
    requires { at ≤ length s.now }
    ensures place { skip_then (cursor_at s.now at) ≡ cursor_at s.now result }
    ensures within { (at ≤ result) × (result ≤ length s.now) }
{
    let i = skip_spaces(s, at);
    let w = name(s, i);
    // THEN
    if w.value == 1414022478 { w.next } else { at }
}

// Past ELSE and the spaces that follow it, if it stands there.
pub fn skip_else(s: &[u8], at: usize) -> Option<usize>
    requires { at ≤ length s.now }
    ensures { ElseRead s.now at result }
{
    let i = skip_spaces(s, at);
    let w = name(s, i);
    // ELSE
    if w.value == 1162629957 {
        return Some(skip_spaces(s, w.next));
    }
    None
}
