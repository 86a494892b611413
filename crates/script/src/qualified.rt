// Commands with qualified strings, A, B, E, AP, BP, EP, PA, PB, SA and SB; and GA, GB, GE, whose words are those of A, B, E.
ghost use Rattle.std.specs.Prelude.{◌≡◌, false};
ghost use Rattle.definitions.specs.Commands.{Shape, alters as «alters-shape», globals as «globals-shape»};
ghost use Rattle.lexer.specs.Shapes.{change_of};
ghost use Rattle.items.specs.Kinds.{change_kind, point_kind, split_kind, global_kind};
ghost use Rattle.script.specs.Reading.{CommandRoom};
ghost use Rattle.script.specs.Commands.{Aims, PairGiven, PairWritten, ShapeRead};

use crate::commands::whole;
use answers::{Answer, Command, Read};
use items::arguments::string_word;
use items::heads::head;
use items::kinds::{
    AFTER, AFTER_POINTING, BEFORE, BEFORE_POINTING, EXCHANGE, EXCHANGE_POINTING, GLOBAL_AFTER,
    GLOBAL_BEFORE, GLOBAL_EXCHANGE, POINT_AFTER, POINT_BEFORE, SPLIT_AFTER, SPLIT_BEFORE,
};
use lexer::shapes::Change;
use matching::search::put_string;
use strings::{TwoStrings, qualified_string, two_plain_strings, two_strings};

fn change_kind(change: Change, pointing: bool) -> u32
    ensures { result ≡ change_kind (change_of change) pointing }
{
    match change {
        Change::After => { if pointing { AFTER_POINTING } else { AFTER } }
        Change::Before => { if pointing { BEFORE_POINTING } else { BEFORE } }
        Change::Exchange => {
            if pointing {
                EXCHANGE_POINTING
            } else {
                EXCHANGE
            }
        }
    }
}

// The words of a command of two strings, which were read.
fn put_strings(
    w: &mut [u32],
    k: usize,
    kind: u32,
    place: usize,
    both: Read<TwoStrings>,
) -> Read<Command>
    requires { PairGiven w.old k place kind both }
    ensures { PairWritten w.old w.new k place kind both result }
{
    let TwoStrings { first, second } = both.value;
    let part = first.part;
    w[k] = head(kind, place);
    let m = put_string(w, k + 1, first.quals, part.start, part.end - part.start);
    w[m] = string_word(second.start, second.end);
    whole(m + 1, both.next)
}

// A, B, E, AP, BP, EP: a qualified string and a second string.
pub fn alters(
    s: &[u8],
    w: &mut [u32],
    k: usize,
    place: usize,
    at: usize,
    change: Change,
    pointing: bool,
) -> Answer<Command>
    requires { CommandRoom s.now w.old place at k }
    ensures { ShapeRead s.now w.old w.new place at k false («alters-shape» (change_of change) pointing) result }
{
    let both = two_strings(s, at)?;
    Ok(put_strings(w, k, change_kind(change, pointing), place, both))
}

fn global_kind(change: Change) -> u32
    ensures { result ≡ global_kind (change_of change) }
{
    match change {
        Change::After => GLOBAL_AFTER,
        Change::Before => GLOBAL_BEFORE,
        Change::Exchange => GLOBAL_EXCHANGE,
    }
}

// GA, GB, GE: two strings, written as a change's are, the first without qualifiers.
pub fn globals(
    s: &[u8],
    w: &mut [u32],
    k: usize,
    place: usize,
    at: usize,
    change: Change,
) -> Answer<Command>
    requires { CommandRoom s.now w.old place at k }
    ensures { ShapeRead s.now w.old w.new place at k false («globals-shape» (change_of change)) result }
{
    let both = two_plain_strings(s, at)?;
    Ok(put_strings(w, k, global_kind(change), place, both))
}

pub fn point_kind(after: bool) -> u32
    ensures { result ≡ point_kind after }
{
    if after { POINT_AFTER } else { POINT_BEFORE }
}

pub fn split_kind(after: bool) -> u32
    ensures { result ≡ split_kind after }
{
    if after { SPLIT_AFTER } else { SPLIT_BEFORE }
}

// PA, PB, SA, SB: a qualified string.
pub fn aims(
    s: &[u8],
    w: &mut [u32],
    k: usize,
    place: usize,
    at: usize,
    kind: u32,
) -> Answer<Command>
    requires { CommandRoom s.now w.old place at k × ((shape : Shape) × Aims kind shape) }
    ensures { (shape : Shape) → Aims kind shape → ShapeRead s.now w.old w.new place at k false shape result }
{
    let string = qualified_string(s, at, false)?;
    let part = string.value.part;
    w[k] = head(kind, place);
    let m = put_string(
        w,
        k + 1,
        string.value.quals,
        part.start,
        part.end - part.start,
    );
    Ok(whole(m, string.next))
}
