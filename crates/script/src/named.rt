// The command that a name selects: its arguments are read by its shape.
ghost use Rattle.std.specs.Prelude.{◌+◌, ◌≤◌, ◌<◌, length};
ghost use Rattle.definitions.specs.Reader.{token};
ghost use Rattle.definitions.specs.Script.{named as «named-of»};
ghost use Rattle.lexer.specs.Places.{cursor_at};
ghost use Rattle.lexer.specs.Shapes.{shape_in};
ghost use Rattle.script.specs.Reading.{CommandRoom, Halfway, RoundOf};
ghost use Rattle.script.specs.Commands.{ShapeRead};
ghost use Rattle.script.specs.Searches.{NameOf};

use crate::commands::{deletes, moves, plain_kind, prefix_word, whole_word};
use crate::inserts::{inserts_lines, quotes, replaces};
use crate::qualified::{aims, alters, globals, point_kind, split_kind};
use crate::rounds::finish;
use crate::searching::{branches, loops, seeks};
use crate::words::names;
use answers::{Answer, Command, Fault, Read, State};
use items::kinds::{AGP, IF_EOF, INSERT_STRING, JOIN, REPEAT};
use lexer::shapes::{Shape, command};
use lexer::words::skip_then;

// The command whose name stands at `place`; its arguments begin at `at`.
fn decode(
    s: &[u8],
    w: &mut [u32],
    k: usize,
    place: usize,
    at: usize,
    shape: Shape,
    grouped: bool,
) -> Answer<Command>
    requires { CommandRoom s.now w.old place at k × NameOf shape place at }
    ensures { ShapeRead s.now w.old w.new place at k grouped (shape_in shape) result }
{
    match shape {
        Shape::Plain(p) => Ok(whole_word(w, k, plain_kind(p), place, at)),
        Shape::Leaves => Ok(whole_word(w, k, AGP, place, at)),
        Shape::Seeks(f) => seeks(s, w, k, place, at, f),
        Shape::Moves => moves(s, w, k, place, at),
        Shape::Deletes => deletes(s, w, k, place, at),
        Shape::InsertsString => quotes(s, w, k, place, at, INSERT_STRING),
        Shape::InsertsLines => inserts_lines(s, w, k, place, at, grouped),
        Shape::Replaces => replaces(s, w, k, place, at, grouped),
        Shape::Alters(change, pointing) => alters(s, w, k, place, at, change, pointing),
        Shape::Points(after) => aims(s, w, k, place, at, point_kind(after)),
        Shape::Splits(after) => aims(s, w, k, place, at, split_kind(after)),
        Shape::Joins => quotes(s, w, k, place, at, JOIN),
        Shape::Globals(change) => globals(s, w, k, place, at, change),
        Shape::Names => names(s, w, k, place, at),
        Shape::Repeats => Ok(prefix_word(w, k, REPEAT, place, at, false)),
        Shape::Branches(holds) => branches(s, w, k, place, at, holds),
        Shape::BranchesEof => {
            let next = skip_then(s, at);
            Ok(prefix_word(w, k, IF_EOF, place, next, true))
        }
        Shape::Loops(holds) => loops(s, w, k, place, at, holds),
        Shape::Unknown => Err(Fault::Unknown.at(place)),
    }
}

// A command with this name, which stands at `at`.
pub fn named(s: &[u8], w: &mut [u32], st: State, at: usize, name: Read<u32>) -> Answer<State>
    requires { Halfway s.now w.old st at × (at < name.next) × (name.next ≤ length s.now) × (256 ≤ name.value → at + 2 ≤ name.next) }
    ensures { RoundOf s.now w.old w.new st at (λ due groups acc. «named-of» due groups acc at (token name.value (cursor_at s.now name.next))) result }
{
    let shape = command(name.value);
    let c = decode(s, w, st.k, at, name.next, shape, st.depth != 0);
    finish(w, st, c)
}
