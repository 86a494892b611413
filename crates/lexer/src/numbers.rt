// Numbers: digits as they stand, and the numbers that a command takes.
ghost use Rattle.std.specs.Prelude.{◌≡◌, ◌+◌, ◌-◌, ◌*◌, ◌≤◌, min, length};
ghost use Rattle.definitions.specs.Reader.{digits as «digits_of», number as «number_of_lem», token};
ghost use Rattle.lexer.specs.Places.{cursor_at};
ghost use Rattle.lexer.specs.Answers.{capped, ValueRead, itself, Numbered};

use crate::bytes::{is_digit, next_byte};
use answers::{Answer, Fault, Read};

// One digit more; over 65,535 the value stays 65,536.
fn with_digit(n: usize, b: u8) -> usize
    requires { (n ≤ 65536) × (48 ≤ b) }
    ensures { result ≡ min (n * 10 + (b - 48)) 65536 }
{
    (n * 10 + usize::from(b - 48)).min(65536)
}

// The digits that stand next. A value over 65,535, which no number of a script has, counts as 65,536.
pub fn digits(s: &[u8], at: usize) -> Read<usize>
    requires { at ≤ length s.now }
    ensures read { capped («digits_of» (cursor_at s.now at)) ≡ token result.value (cursor_at s.now result.next) }
    ensures within { (at ≤ result.next) × (result.next ≤ length s.now) × (result.value ≤ 65536) }
{
    let mut n: usize = 0;
    for i in at..s.len() {
        let b = s[i];
        if !is_digit(b) {
            return Read { value: n, next: i };
        }
        n = with_digit(n, b);
    }
    Read {
        value: n,
        next: s.len(),
    }
}

// A number from 1 to 65,535 must stand at the place, else 3 there.
pub fn number(s: &[u8], at: usize) -> Answer<usize>
    requires { at ≤ length s.now }
    ensures { ValueRead s.now itself (Numbered at) («number_of_lem» (cursor_at s.now at)) result }
{
    if !is_digit(next_byte(s, at)) {
        return Err(Fault::Argument.at(at));
    }
    let d = digits(s, at);
    if d.value < 1 {
        return Err(Fault::Argument.at(at));
    }
    if d.value > 65535 {
        return Err(Fault::Argument.at(at));
    }
    Ok(d)
}
