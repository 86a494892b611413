// Commands: a name's arguments are read and the item is written.
ghost use Rattle.std.specs.Prelude.{◌≡◌, true, false, ◌+◌, ◌≤◌, ◌<◌, length, set, get_or};
ghost use Rattle.definitions.specs.Bytes.{is_digit};
ghost use Rattle.definitions.specs.Reader.{digits as «digits_of»};
ghost use Rattle.definitions.specs.Commands.{moves as «moves_shape», deletes as «deletes-shape»};
ghost use Rattle.lexer.specs.Places.{cursor_at};
ghost use Rattle.items.specs.Words.{head as «head_of»};
ghost use Rattle.script.specs.Reading.{CommandRoom, CommandRead, counted};
ghost use Rattle.script.specs.Commands.{plain_kind, ShapeRead};
ghost use Rattle.answers.specs.Answers.{whole_read, prefix_read};

use answers::{Answer, Command, Fault, Follow, Read};
use items::arguments::{span_head, span_word};
use items::heads::{head, head_with};
use items::kinds::{
    CANCEL, COPY, COUNT, CUT_BYTE, DELETE, LEFT, LONG_COUNT, LOWER, MOVE, NEXT, POINT_START,
    PREVIOUS, QUIT, RIGHT, UPPER,
};
use items::puts::{put_one, put_two};
use lexer::numbers::digits;
use lexer::shapes::Plain;
use lexer::spaces::skip_spaces;
use lexer::targets::{line_span, target};

// A whole command, up to the next free word and the place after it.
pub(crate) fn whole(free: usize, next: usize) -> Read<Command>
    ensures { result ≡ whole_read free next }
{
    let follow = Follow::Nothing;
    Read {
        value: Command { follow, free },
        next,
    }
}

// A prefix; elses: ELSE may follow a group after it.
pub(crate) fn prefix(elses: bool, free: usize, next: usize) -> Read<Command>
    ensures { result ≡ prefix_read elses free next }
{
    let follow = Follow::Body(elses);
    Read {
        value: Command { follow, free },
        next,
    }
}

// A repeat count, 0 to 65,535: one below 512 stands in the first word.
pub fn count(s: &[u8], w: &mut [u32], k: usize, at: usize) -> Answer<Command>
    requires { CommandRoom s.now w.old at (at + 1) k × (is_digit (get_or s.now at 0) ≡ true) }
    ensures { CommandRead s.now w.old w.new at k (counted at («digits_of» (cursor_at s.now at))) result }
{
    let d = digits(s, at);
    let n = d.value;
    if n > 65535 {
        return Err(Fault::Argument.at(at));
    }
    if n < 512 {
        put_one(w, k, head_with(COUNT, at, n as u32));
        return Ok(prefix(false, k + 1, d.next));
    }
    put_two(w, k, head(LONG_COUNT, at), n as u32);
    Ok(prefix(false, k + 2, d.next))
}

pub fn plain_kind(p: Plain) -> u32
    ensures { (result ≡ plain_kind p) × (result < 256) }
{
    match p {
        Plain::Quit => QUIT,
        Plain::Next => NEXT,
        Plain::Previous => PREVIOUS,
        Plain::Copy => COPY,
        Plain::PointStart => POINT_START,
        Plain::Right => RIGHT,
        Plain::Left => LEFT,
        Plain::CutByte => CUT_BYTE,
        Plain::Lower => LOWER,
        Plain::Upper => UPPER,
        Plain::Cancel => CANCEL,
    }
}

// A command of one word.
pub fn whole_word(w: &mut [u32], k: usize, kind: u32, place: usize, at: usize) -> Read<Command>
    requires { (k < length w.old) × (kind < 256) × (place ≤ 16384) }
    ensures { (w.new ≡ set w.old k («head_of» kind place)) × (result ≡ whole_read (k + 1) at) }
{
    w[k] = head(kind, place);
    whole(k + 1, at)
}

// A prefix of one word.
pub fn prefix_word(
    w: &mut [u32],
    k: usize,
    kind: u32,
    place: usize,
    at: usize,
    elses: bool,
) -> Read<Command>
    requires { (k < length w.old) × (kind < 256) × (place ≤ 16384) }
    ensures { (w.new ≡ set w.old k («head_of» kind place)) × (result ≡ prefix_read elses (k + 1) at) }
{
    w[k] = head(kind, place);
    prefix(elses, k + 1, at)
}

// M: a line.
pub fn moves(s: &[u8], w: &mut [u32], k: usize, place: usize, at: usize) -> Answer<Command>
    requires { CommandRoom s.now w.old place at k }
    ensures { ShapeRead s.now w.old w.new place at k false «moves_shape» result }
{
    let line = target(s, skip_spaces(s, at))?;
    put_two(w, k, head(MOVE, place), line.value as u32);
    Ok(whole(k + 2, line.next))
}

// D: lines.
pub fn deletes(s: &[u8], w: &mut [u32], k: usize, place: usize, at: usize) -> Answer<Command>
    requires { CommandRoom s.now w.old place at k }
    ensures { ShapeRead s.now w.old w.new place at k false «deletes-shape» result }
{
    let span = line_span(s, at)?;
    let lines = span.value;
    put_two(
        w,
        k,
        span_head(DELETE, place, lines.last),
        span_word(lines.first, lines.last),
    );
    Ok(whole(k + 2, span.next))
}
