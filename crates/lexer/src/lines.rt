// The lines that I and R insert: script lines up to a line Z.
ghost use Rattle.std.specs.Prelude.{◌≡◌, ◌≤◌, length};
ghost use Rattle.definitions.specs.Commands.{is_z, end_of_line, script_lines};
ghost use Rattle.text.specs.Lines.{part};
ghost use Rattle.lexer.specs.Places.{cursor_at};
ghost use Rattle.lexer.specs.Answers.{PastRead, From, ValueRead};
ghost use Rattle.lexer.specs.Inserted.{lines_in, ZRead, LinesRead, no_z_at};

use crate::bytes::next_byte;
use crate::spaces::{skip_comment, skip_spaces};
use crate::strings::string_end;
use answers::{Answer, Fault, Part, Read, Refusal};

// Past the line's end: only spaces and a comment may stand before it.
pub fn end_of_line(s: &[u8], at: usize) -> Result<usize, Refusal>
    requires { at ≤ length s.now }
    ensures { PastRead s.now (From at) (end_of_line (cursor_at s.now at)) result }
{
    let i = skip_spaces(s, at);
    let b = next_byte(s, i);
    if b == b'\n' {
        return Ok(i + 1);
    }
    if b != b'\\' {
        return Err(Fault::Argument.at(i));
    }
    let e = skip_comment(s, i);
    if e < s.len() { Ok(e + 1) } else { Ok(e) }
}

// Whether the line from `at` to `end` is Z or z.
pub fn is_z(s: &[u8], at: usize, end: usize) -> bool
    requires { (at ≤ end) × (end ≤ length s.now) }
    ensures { result ≡ is_z (part at end s.now) }
{
    if end - at != 1 {
        return false;
    }
    match s[at] {
        b'Z' | b'z' => true,
        _ => false,
    }
}

// The lines from the place on, up to a line Z: the place of Z, and the place after it. No Z is 6 at the script's end, in a group 5.
pub fn lines_to_z(s: &[u8], at: usize, in_group: bool) -> Answer<usize>
    requires { at ≤ length s.now }
    ensures { ZRead in_group s.now at result }
{
    let mut i = at;
    while i < s.len() {
        let e = string_end(s, i, b'\n');
        if is_z(s, i, e) {
            return Ok(Read { value: i, next: e });
        }
        if s.len() <= e {
            return Err(no_z(in_group, e));
        }
        i = e + 1;
    }
    Err(no_z(in_group, i))
}

fn no_z(in_group: bool, at: usize) -> Refusal
    ensures { result ≡ no_z_at in_group at }
{
    let fault = if in_group { Fault::Bracket } else { Fault::NoZ };
    fault.at(at)
}

// The lines of I and R: the part of the script that they are, and the place after Z.
pub fn script_lines(s: &[u8], at: usize, in_group: bool) -> Answer<Part>
    requires { at ≤ length s.now }
    ensures { ValueRead s.now (lines_in s.now) (LinesRead s.now at) (script_lines in_group (cursor_at s.now at)) result }
{
    let start = end_of_line(s, at)?;
    let z = lines_to_z(s, start, in_group)?;
    Ok(Read {
        value: Part {
            start,
            end: z.value,
        },
        next: z.next,
    })
}
