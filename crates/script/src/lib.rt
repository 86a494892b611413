// The reader of whole scripts: bytes to decoded items in the work area, or a number and a place.
#![tactic(auto)]

pub mod commands; // commands.rt: counts, commands of one or two words
pub mod groups; // groups.rt: brackets and ELSE
pub mod inserts; // inserts.rt: IS, CL, I and R
pub mod named; // named.rt: the command that a name selects
pub mod qualified; // qualified.rt: commands with qualified strings
pub mod reading; // reading.rt: the reader that carries its place
pub mod rounds; // rounds.rt: separators, the end, and what a command comes to
pub mod searching; // searching.rt: commands with a search expression
pub mod words; // words.rt: WORD

ghost use Rattle.std.specs.Prelude.{◌≡◌, true, ◌+◌, ◌*◌, ◌≤◌, ◌<◌, length, get_or};
ghost use Rattle.definitions.specs.Bytes.{is_digit};
ghost use Rattle.definitions.specs.Table.{is_script};
ghost use Rattle.definitions.specs.Reader.{digits};
ghost use Rattle.definitions.specs.Script.{count_read, read_at, read_one, read_script};
ghost use Rattle.lexer.specs.Places.{cursor_at};
ghost use Rattle.script.specs.Reading.{reading_of, Halfway, RoundOf, StepOf, ScriptRead};

use answers::{Answer, Read, Refusal, State};
use commands::count;
use groups::{close_group, open_group};
use lexer::bytes::{is_digit, is_letter};
use lexer::names::name;
use lexer::spaces::{skip_comment, skip_spaces};
use named::named;
use reading::{read_next, reader_at};
use rounds::{finish, line_end, script_end, separator};

// A repeat count.
fn counted(s: &[u8], w: &mut [u32], st: State, at: usize) -> Answer<State>
    requires { Halfway s.now w.old st at × (at < length s.now) × (is_digit (get_or s.now at 0) ≡ true) }
    ensures { RoundOf s.now w.old w.new st at (λ due groups acc. count_read due groups acc at (digits (cursor_at s.now at))) result }
{
    let c = count(s, w, st.k, at);
    finish(w, st, c)
}

// Where a command may begin: the byte there says what it is.
fn read_at(s: &[u8], w: &mut [u32], st: State, at: usize) -> Answer<State>
    requires { Halfway s.now w.old st at × (at < length s.now) }
    ensures { RoundOf s.now w.old w.new st at (λ due groups acc. read_at due groups acc (cursor_at s.now at)) result }
{
    match s[at] {
        b';' => separator(st, at, at + 1),
        b'\n' => line_end(w, st, at),
        b'(' => open_group(w, st, at),
        b')' => close_group(s, w, st, at),
        b'\\' => separator(st, at, skip_comment(s, at + 1)),
        b if is_digit(b) => counted(s, w, st, at),
        b if is_letter(b) => named(s, w, st, at, name(s, at)),
        b => {
            let sign = Read {
                value: u32::from(b),
                next: at + 1,
            };
            named(s, w, st, at, sign)
        }
    }
}

// One round: a command, a prefix, a bracket or a separator, and the state after it; none at the script's end.
fn read_one(s: &[u8], w: &mut [u32], st: State, from: usize) -> Result<Option<Read<State>>, Refusal>
    requires { Halfway s.now w.old st from }
    ensures { StepOf s.now w.old w.new st from (λ due groups acc. read_one (reading_of s.now w.old st from acc)) result }
{
    let at = skip_spaces(s, from);
    if at < s.len() {
        return read_at(s, w, st, at).map(Some);
    }
    script_end(st, at).and(Ok(None))
}

// Reads a script: its items go to the work area, from the first word on. Their end.
pub fn read_script(s: &[u8], w: &mut [u32]) -> Result<usize, Refusal>
    requires { (is_script s.now ≡ true) × (2 * length s.now + 64 ≤ length w.old) }
    ensures { ScriptRead s.now w.new (read_script s.now) result }
{
    let mut st = State {
        k: 0,
        due: 0,
        elses: false,
        depth: 0,
    };
    let mut reader = reader_at(s, 0);
    loop {
        let round = read_next(&mut reader, w, st);
        let Ok(Some(next)) = round else {
            return round.and(Ok(st.k));
        };
        st = next;
    }
}
