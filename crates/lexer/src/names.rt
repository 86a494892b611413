// Command names.
ghost use Rattle.std.specs.Prelude.{◌≡◌, ◌+◌, ◌-◌, ◌≤◌, ◌<◌, length};
ghost use Rattle.definitions.specs.Reader.{name as «name_of», token};
ghost use Rattle.lexer.specs.Places.{cursor_at};
ghost use Rattle.lexer.specs.Steps.{limit, with_letter};

use crate::bytes::is_letter;
use answers::Read;
use text::upper;

// One letter more, where `left` more letters count.
fn with_letter(n: u32, left: usize, b: u8) -> u32
    requires { n < limit left }
    ensures { result ≡ with_letter left n b }
{
    if left == 0 {
        return n;
    }
    n * 256 + u32::from(upper(b))
}

// The letters that stand next: the first four, upper-cased, packed with the first one highest.
pub fn name(s: &[u8], at: usize) -> Read<u32>
    requires { at ≤ length s.now }
    ensures read { «name_of» (cursor_at s.now at) ≡ token result.value (cursor_at s.now result.next) }
    ensures within { (at ≤ result.next) × (result.next ≤ length s.now) }
{
    let mut n: u32 = 0;
    let mut left: usize = 4;
    for i in at..s.len() {
        let b = s[i];
        if !is_letter(b) {
            return Read { value: n, next: i };
        }
        n = with_letter(n, left, b);
        left = left.saturating_sub(1);
    }
    Read {
        value: n,
        next: s.len(),
    }
}
