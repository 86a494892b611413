// A place of a pattern's string: which byte stands there.
ghost use Rattle.std.specs.Prelude.{◌≡◌, ◌<◌};
ghost use Rattle.definitions.specs.Reader.{is_next};
ghost use Rattle.definitions.specs.Patterns.{ends_row};
ghost use Rattle.text.specs.Cursors.{cursor_at};

// Does the byte b, which is not 0, stand at the place.
pub fn is_next(s: &[u8], at: usize, b: u8) -> bool
    requires { 0 < b }
    ensures { result ≡ is_next b (cursor_at s.now at) }
{
    if at < s.len() { b == s[at] } else { false }
}

// Does no item follow in the row: the end of the string, `|` or `)` stands at the place.
pub fn ends_row(s: &[u8], at: usize) -> bool
    ensures { result ≡ ends_row (cursor_at s.now at) }
{
    if s.len() <= at {
        return true;
    }
    let c = s[at];
    (b'|' == c) | (b')' == c)
}
