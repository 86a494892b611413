// The lines that a done run leaves unread pass through the standing globals, all of them or none. What they leave is no text of a run (no line is current),
// so these functions take the buffer and its numbers, and no `Editor`.
#![tactic(auto)]

ghost use Rattle.std.specs.Prelude.{◌<◌};
ghost use Rattle.editor.specs.Shows.{ShowsText};
ghost use Rattle.reading.specs.Carrying.{SomeStand};
ghost use Rattle.reading.specs.Lines.{AtUnread, KeptAt};
ghost use Rattle.tail.specs.Rest.{GrowsAt, Measures, PassesRest};

use editor::{State, Stop, Stopped};

// How many bytes more the record of the line takes as the globals leave it, the kept one at `at`; or they stop on it.
fn grows_by(script: &[u8], w: &[u32], j: &[u8], at: usize) -> Result<usize, Stop>
    requires { SomeStand script.now w.now × KeptAt j.now at }
    ensures { GrowsAt script.now w.now j.now at result }
{
    let mut line = [0u8; 256];
    let left = reading::lines::pass_text(script, w, j, at, &mut line);
    let Ok(m) = left else {
        return Err(Stop::LineLong);
    };
    let end = editor::walk::record_end(j, at) - 1;
    if text::is_same(j, at + 2, end, &line, m) {
        return Ok(0);
    }
    Ok(m + 1)
}

// Whether the globals stop among the lines behind the gap, and why. Nothing is written: it is found out beforehand.
fn measure(script: &[u8], w: &[u32], j: &[u8], st: State) -> Result<(), Stop>
    requires { SomeStand script.now w.now × AtUnread j.now st }
    ensures { Measures script.now w.now j.now st result }
{
    let mut at = st.back;
    let mut room = st.back - st.front;
    while at < j.len() {
        let n = grows_by(script, w, j, at)?;
        if room < n {
            return Err(Stop::JournalFull);
        }
        room -= n;
        at = editor::walk::record_end(j, at);
    }
    Ok(())
}

// The unread lines pass through the standing globals. Ok: the buffer holds what they come to. Err: it holds the journal as it was. The gap may stand
// elsewhere then; the furthest line read is that of the numbers given.
pub fn pass_rest(script: &[u8], w: &[u32], j: &mut [u8], st: State) -> Result<State, Stopped>
    requires { SomeStand script.now w.now × ShowsText j.old st }
    ensures { PassesRest script.now w.now j.old st j.new result }
{
    if globals::none_stands(w) {
        return Ok(st);
    }
    if st.lines < st.furthest {
        return Ok(st);
    }
    let first = editor::walk::to_source(j, st, st.furthest);
    match measure(script, w, j, first) {
        Ok(()) => reading::lines::read_lines(script, w, j, first, st.lines),
        Err(stop) => Err(Stopped { stop, st: first }),
    }
}
