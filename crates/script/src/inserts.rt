// Commands with strings or lines of the script: IS, CL, I and R. Strings and lines stay in the script; their places are written.
ghost use Rattle.std.specs.Prelude.{false};
ghost use Rattle.definitions.specs.Commands.{Shape, inserts_lines, replaces as «replaces-shape»};
ghost use Rattle.script.specs.Reading.{CommandRoom};
ghost use Rattle.script.specs.Commands.{Quotes, ShapeRead};

use crate::commands::whole;
use answers::{Answer, Command};
use items::arguments::{span_head, span_word, spot_word, string_word};
use items::heads::head;
use items::kinds::{INSERT_LINES, REPLACE};
use items::puts::{put_four, put_two};
use lexer::lines::script_lines;
use lexer::spaces::skip_spaces;
use lexer::strings::quoted;
use lexer::targets::{Lines, line_span, optional_target};

// IS, CL: a string.
pub fn quotes(
    s: &[u8],
    w: &mut [u32],
    k: usize,
    place: usize,
    at: usize,
    kind: u32,
) -> Answer<Command>
    requires { CommandRoom s.now w.old place at k × ((shape : Shape) × Quotes kind shape) }
    ensures { (shape : Shape) → Quotes kind shape → ShapeRead s.now w.old w.new place at k false shape result }
{
    let string = quoted(s, skip_spaces(s, at))?;
    let part = string.value;
    put_two(w, k, head(kind, place), string_word(part.start, part.end));
    Ok(whole(k + 2, string.next))
}

// I: a line, and lines of the script.
pub fn inserts_lines(
    s: &[u8],
    w: &mut [u32],
    k: usize,
    place: usize,
    at: usize,
    grouped: bool,
) -> Answer<Command>
    requires { CommandRoom s.now w.old place at k }
    ensures { ShapeRead s.now w.old w.new place at k grouped inserts_lines result }
{
    let spot = optional_target(s, at)?;
    let lines = script_lines(s, spot.next, grouped)?;
    let part = lines.value;
    put_four(
        w,
        k,
        head(INSERT_LINES, place),
        spot_word(spot.value),
        part.start as u32,
        part.end as u32,
    );
    Ok(whole(k + 4, lines.next))
}

// R: lines to delete, and lines of the script.
pub fn replaces(
    s: &[u8],
    w: &mut [u32],
    k: usize,
    place: usize,
    at: usize,
    grouped: bool,
) -> Answer<Command>
    requires { CommandRoom s.now w.old place at k }
    ensures { ShapeRead s.now w.old w.new place at k grouped «replaces-shape» result }
{
    let span = line_span(s, at)?;
    let Lines { first, last } = span.value;
    let lines = script_lines(s, span.next, grouped)?;
    let part = lines.value;
    put_four(
        w,
        k,
        span_head(REPLACE, place, last),
        span_word(first, last),
        part.start as u32,
        part.end as u32,
    );
    Ok(whole(k + 4, lines.next))
}
