// Groups: brackets and ELSE. The word of an open group stands at the work area's end, before those of the groups that it is in.
ghost use Rattle.std.specs.Prelude.{◌≡◌, false, Ok, ◌∷◌, ◌+◌, ◌-◌, ◌*◌, ◌/◌, ◌≤◌, ◌<◌, length};
ghost use Rattle.definitions.specs.Control.{opens, bare, bracket};
ghost use Rattle.definitions.specs.Script.{group, closes, open_group, else_group, close_group};
ghost use Rattle.lexer.specs.Places.{cursor_at};
ghost use Rattle.script.specs.Reading.{Halfway, HalfwayIn, RoundOf, RoundIn, goes_on, outer_groups, bodies_at};

use answers::{Answer, Fault, Read, State};
use items::heads::head;
use items::kinds::{BARE, BRACKET, ELSE};
use items::puts::put_closes;
use lexer::bytes::next_byte;
use lexer::words::skip_else;

// A group that is the body of nothing.
fn open_bare(w: &mut [u32], st: State, at: usize) -> Read<State>
    requires { HalfwayIn w.old st at × (st.depth < 16) × (st.due ≡ 0) }
    ensures { RoundIn w.old w.new st at (λ s due groups acc. goes_on s (at + 1) (group 1 false ∷ groups) (bracket ∷ opens at bare ∷ acc)) (Ok result) }
{
    let k = st.k;
    let depth = st.depth + 1;
    let top = w.len() - depth;
    w[k] = head(BARE, at);
    w[k + 1] = BRACKET;
    w[top] = 2;
    let value = State {
        k: k + 2,
        due: 0,
        elses: false,
        depth,
    };
    Read {
        value,
        next: at + 1,
    }
}

// A group that is a body: its end closes what is due.
fn open_body(w: &mut [u32], st: State, at: usize) -> Read<State>
    requires { HalfwayIn w.old st at × (st.depth < 16) }
    ensures { RoundIn w.old w.new st at (λ s due groups acc. goes_on s (at + 1) (group st.due st.elses ∷ groups) (bracket ∷ acc)) (Ok result) }
{
    let k = st.k;
    let depth = st.depth + 1;
    let top = w.len() - depth;
    w[k] = BRACKET;
    w[top] = 2 * (st.due as u32) + u32::from(st.elses);
    let value = State {
        k: k + 1,
        due: 0,
        elses: false,
        depth,
    };
    Read {
        value,
        next: at + 1,
    }
}

// `(`: the seventeenth group in groups is 5 at it.
pub fn open_group(w: &mut [u32], st: State, at: usize) -> Answer<State>
    requires { HalfwayIn w.old st at }
    ensures { RoundIn w.old w.new st at (λ s due groups acc. open_group due groups acc (cursor_at s at)) result }
{
    if st.depth >= 16 {
        return Err(Fault::Bracket.at(at));
    }
    if st.due == 0 {
        return Ok(open_bare(w, st, at));
    }
    Ok(open_body(w, st, at))
}

// The group that must follow ELSE, at a place; it closes so many bodies.
fn else_group(s: &[u8], w: &mut [u32], st: State, at: usize, bodies: usize) -> Answer<State>
    requires { Halfway s.now w.old st at × (0 < st.depth) × (bodies ≡ bodies_at w.old st.depth) × (st.due ≡ 0) }
    ensures { RoundOf s.now w.old w.new st at (λ due groups acc. else_group bodies (outer_groups w.old st) acc (cursor_at s.now at)) result }
{
    if next_byte(s, at) != b'(' {
        return Err(Fault::Argument.at(at));
    }
    let k = st.k;
    let depth = st.depth;
    let top = w.len() - depth;
    w[k] = ELSE;
    w[k + 1] = BRACKET;
    w[top] = 2 * (bodies as u32);
    let value = State {
        k: k + 2,
        due: 0,
        elses: false,
        depth,
    };
    Ok(Read {
        value,
        next: at + 1,
    })
}

// The end of a group that closes so many bodies.
fn end_group(w: &mut [u32], st: State, at: usize, bodies: usize) -> Read<State>
    requires { HalfwayIn w.old st at × (0 < st.depth) × (bodies ≡ bodies_at w.old st.depth) × (st.due ≡ 0) }
    ensures { RoundIn w.old w.new st at (λ s due groups acc. goes_on s (at + 1) (outer_groups w.old st) (closes bodies acc)) (Ok result) }
{
    let k = st.k;
    put_closes(w, k, bodies);
    let value = State {
        k: k + bodies,
        due: 0,
        elses: false,
        depth: st.depth - 1,
    };
    Read {
        value,
        next: at + 1,
    }
}

// `)`: where a body must follow it is missing, 3; where no group is open, 5.
pub fn close_group(s: &[u8], w: &mut [u32], st: State, at: usize) -> Answer<State>
    requires { Halfway s.now w.old st at × (at < length s.now) }
    ensures { RoundOf s.now w.old w.new st at (λ due groups acc. close_group due groups acc (cursor_at s.now at)) result }
{
    if st.due != 0 {
        return Err(Fault::Argument.at(at));
    }
    let depth = st.depth;
    if depth == 0 {
        return Err(Fault::Bracket.at(at));
    }
    let top = w.len() - depth;
    let word = w[top];
    let bodies = (word / 2) as usize;
    if word % 2 == 1 {
        if let Some(p) = skip_else(s, at + 1) {
            return else_group(s, w, st, p, bodies);
        }
    }
    Ok(end_group(w, st, at, bodies))
}
