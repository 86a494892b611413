// Lines read one after the other: each passes the gap, with its text as the standing globals leave it. While they pass, the buffer shows no text, so these
// functions take it and its numbers, and no `Editor`.
ghost use Rattle.std.specs.Prelude.{◌≡◌, true, ◌+◌, ◌-◌, ◌≤◌, ◌<◌, length, take};
ghost use Rattle.definitions.specs.Bytes.{is_line};
ghost use Rattle.reading.specs.Carrying.{SomeStand};
ghost use Rattle.reading.specs.Lines.{AtUnread, KeptAt, PassesText, SomePassed, Changes, TakesText, ReadsLine, ReadsLines};

use editor::{State, Stop, Stopped};
use globals::TooLong;

// The text of the kept record at `at`, passed through the standing globals, at the start of `line`.
pub fn pass_text(
    script: &[u8],
    w: &[u32],
    j: &[u8],
    at: usize,
    line: &mut [u8],
) -> Result<usize, TooLong>
    requires { SomeStand script.now w.now × KeptAt j.now at × (256 ≤ length line.old) }
    ensures { PassesText script.now w.now j.now at result line.new }
{
    let x = editor::walk::text_at(j, at);
    let n = x.n;
    text::copies::copy_in(line, 0, j, x.from, n);
    globals::pass(script, w, line, n)
}

// The kept record from f up to the gap becomes a changed one, with the first m bytes of line for its text. There is room.
fn change_passed(j: &mut [u8], st: State, f: usize, line: &[u8], m: usize) -> State
    requires { SomePassed j.old st f × (m ≤ length line.now) × (is_line (take m line.now) ≡ true) × (st.front + (m + 1) ≤ st.back) }
    ensures { Changes f (take m line.now) j.old st j.new result }
{
    let end = st.front;
    j[f] = 60;
    j[f + 1] = 62;
    // A 0 stands between the two lines of a changed record.
    j[end - 1] = 0;
    text::copies::copy_in(j, end, line, 0, m);
    let last = end + m;
    j[last] = 10;
    let mut s = st;
    s.front = last + 1;
    s
}

// The line of the kept record from f up to the gap is read with the first m bytes of line for its text. 26: the journal would exceed its buffer.
fn take_text(j: &mut [u8], st: State, f: usize, line: &[u8], m: usize) -> Result<State, Stopped>
    requires { SomePassed j.old st f × (m ≤ length line.now) × (is_line (take m line.now) ≡ true) }
    ensures { TakesText f (take m line.now) j.old st j.new result }
{
    let end = st.front - 1;
    if text::is_same(j, f + 2, end, line, m) {
        return Ok(st);
    }
    let room = st.back - st.front;
    if room < m + 1 {
        return Err(Stopped {
            stop: Stop::JournalFull,
            st,
        });
    }
    Ok(change_passed(j, st, f, line, m))
}

// The next line is read. One on which the globals stop passes the gap with the text that it has.
fn read_line(script: &[u8], w: &[u32], j: &mut [u8], st: State) -> Result<State, Stopped>
    requires { SomeStand script.now w.now × AtUnread j.old st × (st.back < length j.old) }
    ensures { ReadsLine script.now w.now j.old st j.new result }
{
    let mut line = [0u8; 256];
    let left = pass_text(script, w, j, st.back, &mut line);
    let s = editor::walk::pass_record(j, st);
    match left {
        Err(TooLong) => Err(Stopped {
            stop: Stop::LineLong,
            st: s,
        }),
        Ok(m) => take_text(j, s, st.front, &line, m),
    }
}

// The lines up to source line `last` are read, which stand behind the gap; fewer where one stops.
pub fn read_lines(
    script: &[u8],
    w: &[u32],
    j: &mut [u8],
    st: State,
    last: usize,
) -> Result<State, Stopped>
    requires { SomeStand script.now w.now × AtUnread j.old st × (last ≤ st.lines) }
    ensures { ReadsLines script.now w.now j.old st last j.new result }
{
    let mut s = st;
    while s.past < last {
        s = read_line(script, w, j, s)?;
    }
    Ok(s)
}
