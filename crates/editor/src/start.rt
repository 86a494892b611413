// The journal buffer at the start of a run.
ghost use Rattle.std.specs.Prelude.{◌≡◌, true, ◌∷◌, ◌++◌, ◌+◌, ◌≤◌, length, take, drop};
ghost use Rattle.definitions.specs.Bytes.{lines_of};
ghost use Rattle.definitions.specs.Table.{is_table};
ghost use Rattle.definitions.specs.Run.{opening_length};
ghost use Rattle.definitions.specs.Tape.{unread};
ghost use Rattle.definitions.specs.Reading.{opening};
ghost use Rattle.editor.specs.Records.{OpeningAt};
ghost use Rattle.editor.specs.Shows.{Opens, ShowsText};

use crate::{Editor, State};

// Writes the n bytes of the table t from `from` on, a line with its line feed, as a kept record that ends at o, and hands its start back.
fn put_kept(j: &mut [u8], o: usize, t: &[u8], from: usize, n: usize) -> usize
    requires { (n + 2 ≤ o) × (o ≤ length j.old) × (from + n ≤ length t.now) }
    ensures { (j.new ≡ take result j.old ++ (61 ∷ 61 ∷ (take n (drop from t.now) ++ drop o j.old))) × (result + (n + 2) ≡ o) }
{
    let at = o - n;
    text::copies::copy_in(j, at, t, from, n);
    let a = at - 2;
    j[a] = 61;
    j[a + 1] = 61;
    a
}

// The start of the opening journal, and the lines of the table.
#[derive(Clone, Copy)]
struct Opened {
    at: usize,
    lines: usize,
}

// Writes the opening journal of the table t so that it ends at the buffer's end, the last line first: its start need not be known.
fn write_opening(t: &[u8], j: &mut [u8]) -> Opened
    requires { (is_table t.now ≡ true) × (opening_length (lines_of t.now) ≤ length j.old) }
    ensures { OpeningAt (lines_of t.now) j.old j.new result.at × (result.lines ≡ length (lines_of t.now)) }
{
    let mut i = t.len();
    let mut o = j.len();
    let mut lines: usize = 0;
    while 0 < i {
        let from = text::feeds::line_start(t, i - 1);
        let n = i - from;
        o = put_kept(j, o, t, from, n);
        i = from;
        lines += 1;
    }
    Opened {
        at: o,
        lines: lines,
    }
}

impl<'a> Editor<'a> {
    // The editor of a buffer and its numbers, which show a text.
    pub fn lent(j: &'a mut [u8], st: State) -> Editor<'a>
        requires { ShowsText j.old st }
        ensures lent { result.journal.ghost_name ≡ j.entry.ghost_name }
        ensures same { result.journal.now ≡ j.old }
        ensures numbers { result.st ≡ st }
    {
        Editor { journal: j, st }
    }

    // The opening journal of the table t at the back of the buffer, zeros before it: the first line, or EOF, is current and read.
    pub fn open(t: &[u8], j: &'a mut [u8]) -> Editor<'a>
        requires { (is_table t.now ≡ true) × (opening_length (lines_of t.now) ≤ length j.old) }
        ensures lent { result.journal.ghost_name ≡ j.entry.ghost_name }
        ensures long { length result.journal.now ≡ length j.old }
        ensures opens { Opens result.journal.now result.st (opening (unread (lines_of t.now))) }
    {
        let w = write_opening(t, j);
        let b = w.at;
        gap::clear(j, 0, b);
        let st = State {
            front: 0,
            back: b,
            past: 0,
            furthest: 0,
            lines: w.lines,
            source: 0,
            size: t.len(),
            p: 0,
        };
        Editor::lent(j, crate::walk::read_to(st, 1))
    }
}
