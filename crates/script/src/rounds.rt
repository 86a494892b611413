// One round: separators and the script's end, and what a command that was read comes to.
ghost use Rattle.std.specs.Prelude.{◌≡◌, List, ℕ, ◌+◌};
ghost use Rattle.definitions.specs.Control.{Item};
ghost use Rattle.definitions.specs.Reader.{Got};
ghost use Rattle.definitions.specs.Commands.{Decoded};
ghost use Rattle.definitions.specs.Script.{separator as «separator-of», line_items};
ghost use Rattle.lexer.specs.Places.{cursor_at};
ghost use Rattle.script.specs.Reading.{ReadSoFar, CommandRead, HalfwayIn, RoundIn, Finishes};
ghost use Rattle.script.specs.Placed.{separated, ended};

use answers::{Answer, Command, Fault, Follow, Read, Refusal, State};
use items::kinds::LINE_END;
use items::puts::put_closes;

// `;`, a line end or a comment, with the place after it: where a body must follow it is missing, 3.
pub fn separator(st: State, at: usize, next: usize) -> Answer<State>
    ensures { result ≡ separated st at next }
{
    if st.due != 0 {
        return Err(Fault::Argument.at(at));
    }
    Ok(Read { value: st, next })
}

// A line end: outside groups it is an item.
pub fn line_end(w: &mut [u32], st: State, at: usize) -> Answer<State>
    requires { HalfwayIn w.old st at }
    ensures { RoundIn w.old w.new st at (λ s due groups acc. «separator-of» due groups (line_items groups acc) at (cursor_at s (at + 1))) result }
{
    if st.due != 0 {
        return Err(Fault::Argument.at(at));
    }
    if st.depth != 0 {
        return Ok(Read {
            value: st,
            next: at + 1,
        });
    }
    let k = st.k;
    w[k] = LINE_END;
    Ok(Read {
        value: State { k: k + 1, ..st },
        next: at + 1,
    })
}

// The script's end, and that of the items' words: a group that is never closed is 5.
pub fn script_end(st: State, at: usize) -> Result<usize, Refusal>
    ensures { result ≡ ended st at }
{
    if st.due != 0 {
        return Err(Fault::Argument.at(at));
    }
    if st.depth != 0 {
        return Err(Fault::Bracket.at(at));
    }
    Ok(st.k)
}

// What the reader of a command answered, with the command's words: a command closes the bodies that it was due for; after a prefix a command or group
// must follow; a refusal is passed upward.
pub fn finish(w: &mut [u32], st: State, c: Answer<Command>) -> Answer<State>
    requires { (s : List ℕ) × (before : List ℕ) × (at : ℕ) × (acc : List Item) × (x : Got Decoded) × ReadSoFar s before st at acc × CommandRead s before w.old at st.k x c }
    ensures { Finishes w.old w.new st c result }
{
    let Ok(read) = c else {
        return Err(c.unwrap_err());
    };
    let m = read.value.free;
    match read.value.follow {
        Follow::Nothing => {
            let due = st.due;
            put_closes(w, m, due);
            let closed = State {
                k: m + due,
                due: 0,
                elses: false,
                depth: st.depth,
            };
            Ok(Read {
                value: closed,
                next: read.next,
            })
        }
        Follow::Body(elses) => {
            let opened = State {
                k: m,
                due: st.due + 1,
                elses,
                depth: st.depth,
            };
            Ok(Read {
                value: opened,
                next: read.next,
            })
        }
    }
}
