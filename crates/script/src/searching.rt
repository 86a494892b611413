// Commands with a search expression: F, BF, DF, IF, UL, WH and UT.
ghost use Rattle.std.specs.Prelude.{◌≡◌, false, ◌+◌, ◌≤◌, ◌<◌};
ghost use Rattle.definitions.specs.Strings.{search_expression};
ghost use Rattle.definitions.specs.Commands.{seeks as «seeks-shape», branches as «branches-shape», loops as «loops-shape»};
ghost use Rattle.lexer.specs.Places.{cursor_at};
ghost use Rattle.lexer.specs.Shapes.{seek_of};
ghost use Rattle.items.specs.Kinds.{seek_kind, branch_kind, loop_kind};
ghost use Rattle.items.specs.Words.{head as «head_of»};
ghost use Rattle.script.specs.Reading.{CommandRoom};
ghost use Rattle.script.specs.Commands.{ShapeRead};
ghost use Rattle.script.specs.Searches.{Searched};

use crate::commands::{prefix, whole};
use answers::{Answer, Command};
use items::heads::head;
use items::kinds::{FIND, FIND_BACK, FIND_DELETE, IF, UNLESS, UNTIL, WHILE};
use items::puts::put_two;
use lexer::shapes::Seek;
use lexer::words::skip_then;
use searches::search;

// The first word, where the search ends, and the search. The groups' words are kept from it.
fn search_words(
    s: &[u8],
    w: &mut [u32],
    k: usize,
    place: usize,
    at: usize,
    kind: u32,
) -> Answer<usize>
    requires { CommandRoom s.now w.old place at k × (kind < 256) }
    ensures { Searched s.now w.old w.new at k («head_of» kind place) (search_expression (cursor_at s.now at)) result }
{
    let limit = w.len() - 16;
    let found = search(s, at, &mut w[..limit], k + 2)?;
    put_two(w, k, head(kind, place), found.value as u32);
    Ok(found)
}

fn seek_kind(seek: Seek) -> u32
    ensures { (result ≡ seek_kind (seek_of seek)) × (result < 256) }
{
    match seek {
        Seek::Forward => FIND,
        Seek::Backward => FIND_BACK,
        Seek::Deleting => FIND_DELETE,
    }
}

// F, BF, DF.
pub fn seeks(
    s: &[u8],
    w: &mut [u32],
    k: usize,
    place: usize,
    at: usize,
    seek: Seek,
) -> Answer<Command>
    requires { CommandRoom s.now w.old place at k }
    ensures { ShapeRead s.now w.old w.new place at k false («seeks-shape» (seek_of seek)) result }
{
    let found = search_words(s, w, k, place, at, seek_kind(seek))?;
    Ok(whole(found.value, found.next))
}

fn branch_kind(holds: bool) -> u32
    ensures { (result ≡ branch_kind holds) × (result < 256) }
{
    if holds { IF } else { UNLESS }
}

// IF (true), UL: THEN may follow.
pub fn branches(
    s: &[u8],
    w: &mut [u32],
    k: usize,
    place: usize,
    at: usize,
    holds: bool,
) -> Answer<Command>
    requires { CommandRoom s.now w.old place at k × (place + 2 ≤ at) }
    ensures { ShapeRead s.now w.old w.new place at k false («branches-shape» holds) result }
{
    let found = search_words(s, w, k, place, at, branch_kind(holds))?;
    Ok(prefix(true, found.value, skip_then(s, found.next)))
}

fn loop_kind(holds: bool) -> u32
    ensures { (result ≡ loop_kind holds) × (result < 256) }
{
    if holds { WHILE } else { UNTIL }
}

// WH (true), UT.
pub fn loops(
    s: &[u8],
    w: &mut [u32],
    k: usize,
    place: usize,
    at: usize,
    holds: bool,
) -> Answer<Command>
    requires { CommandRoom s.now w.old place at k × (place + 2 ≤ at) }
    ensures { ShapeRead s.now w.old w.new place at k false («loops-shape» holds) result }
{
    let found = search_words(s, w, k, place, at, loop_kind(holds))?;
    Ok(prefix(false, found.value, found.next))
}
