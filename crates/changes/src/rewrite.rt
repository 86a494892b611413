// The current record written anew with another text.
ghost use Rattle.std.specs.Prelude.{◌≡◌, true, List, [], ◌∷◌, ◌++◌, ◌+◌, ◌≤◌, ◌<◌, length, take, drop, set};
ghost use Rattle.definitions.specs.Bytes.{is_line, all_text};
ghost use Rattle.definitions.specs.Journal.{Record};
ghost use Rattle.definitions.specs.Given.{Carried};
ghost use Rattle.definitions.specs.Edit.{splice};
ghost use Rattle.definitions.specs.Editor.{retext};
ghost use Rattle.definitions.specs.StepProgram.{gives, changes};
ghost use Rattle.editor.specs.Shows.{Holds, ShowsText, Completes};
ghost use Rattle.editor.specs.Edited.{Does};
ghost use Rattle.changes.specs.Current.{written, EndsAt, HasEnds, Builds, MakesAnew, Replaces, Replacing, HasLine, Writes};

use editor::{Editor, State, Stop};

// Where the first line of the current record ends, the old one where it is changed; and where the record does.
#[derive(Clone, Copy)]
struct Ends {
    old: usize,
    end: usize,
}

// A 0 stands between the two lines of a changed record.
fn record_ends(j: &[u8], st: State) -> Ends
    requires { (b : List Record) × (r : Record) × (a : List Record) × Holds j.now st b (r ∷ a) }
    ensures { (b : List Record) (r : Record) (a : List Record) → Holds j.now st b (r ∷ a) → EndsAt j.now st.back result r }
{
    let at = st.back;
    let x = editor::walk::text_at(j, at);
    let end = x.from + x.n;
    if j[at] == 60 {
        return Ends {
            old: x.from - 1,
            end: end + 1,
        };
    }
    Ends {
        old: end,
        end: end + 1,
    }
}

// One byte of a record.
fn put_byte(rec: &mut [u8], at: usize, b: u8)
    requires { at < length rec.old }
    ensures { rec.new ≡ set rec.old at b }
{
    rec[at] = b;
}

// A record of one line: its mark, the line, a line feed.
fn plain_record(rec: &mut [u8], mark: u8, line: &[u8], len: usize)
    requires { (len + 3 ≤ length rec.old) × (len ≤ length line.now) }
    ensures { rec.new ≡ written rec.old (mark ∷ mark ∷ (take len line.now ++ (10 ∷ []))) }
{
    put_byte(rec, 0, mark);
    put_byte(rec, 1, mark);
    text::copies::copy_in(rec, 2, line, 0, len);
    put_byte(rec, len + 2, 10);
}

// A changed record: its mark, the old line, which is n bytes of j, a 0, the new line, a line feed.
fn changed_record(rec: &mut [u8], j: &[u8], from: usize, n: usize, line: &[u8], len: usize)
    requires { (n + len + 4 ≤ length rec.old) × (from + n ≤ length j.now) × (len ≤ length line.now) }
    ensures { rec.new ≡ written rec.old (60 ∷ 62 ∷ ((take n (drop from j.now) ++ (0 ∷ take len line.now)) ++ (10 ∷ []))) }
{
    put_byte(rec, 0, 60);
    put_byte(rec, 1, 62);
    text::copies::copy_in(rec, 2, j, from, n);
    put_byte(rec, n + 2, 0);
    text::copies::copy_in(rec, n + 3, line, 0, len);
    put_byte(rec, n + len + 3, 10);
}

// The current record with the first len bytes of line for its text: its length is handed back.
fn build_record(rec: &mut [u8], j: &[u8], st: State, c: Ends, line: &[u8], len: usize) -> usize
    requires { HasEnds j.now st c × (514 ≤ length rec.old) × (len ≤ length line.now) × (is_line (take len line.now) ≡ true) }
    ensures { Builds j.now st c (take len line.now) rec.old rec.new result }
{
    let at = st.back;
    if j[at] == 43 {
        plain_record(rec, 43, line, len);
        return len + 3;
    }
    let from = at + 2;
    let old = c.old;
    if text::is_same(j, from, old, line, len) {
        plain_record(rec, 61, line, len);
        return len + 3;
    }
    let n = old - from;
    changed_record(rec, j, from, n, line, len);
    n + len + 4
}

// The record that the current one becomes: its length; and where the current one ends.
#[derive(Clone, Copy)]
pub struct Anew {
    pub n: usize,
    pub end: usize,
}

// The record that the current one becomes with the first len bytes of line for its text, at the start of rec.
pub fn record_anew(rec: &mut [u8], j: &[u8], st: State, line: &[u8], len: usize) -> Anew
    requires { ShowsText j.now st × (st.back < length j.now) × (514 ≤ length rec.old) × (len ≤ length line.now) × (is_line (take len line.now) ≡ true) }
    ensures { MakesAnew j.now st (take len line.now) rec.old rec.new result }
{
    let c = record_ends(j, st);
    let n = build_record(rec, j, st, c, line, len);
    Anew { n, end: c.end }
}

// The first n bytes of rec stand for the current record, which ends at `end`; p becomes q. There is room. CL and SA put it in the middle of a command, where no
// text is shown, so this takes the buffer and its numbers, and no `Editor`.
pub fn put_record(j: &mut [u8], st: State, end: usize, rec: &[u8], n: usize, q: usize) -> State
    requires { ((b : List Record) × (r : Record) × (a : List Record) × (x : Record) × Replacing j.old st end rec.now n b r a x) × (st.front + n ≤ end) }
    ensures { Replaces j.old st end rec.now n q j.new result }
{
    let at = st.back;
    let to = end - n;
    text::copies::copy_in(j, to, rec, 0, n);
    let mut s = st;
    s.back = to;
    s.p = q;
    if at < to {
        gap::clear(j, at, to - at);
        return s;
    }
    s
}

// The current line's text becomes the first len bytes of line, and p becomes q. 26: the journal would exceed its buffer.
fn rewrite_current(ed: &mut Editor<'_>, line: &[u8], len: usize, q: usize) -> Result<(), Stop>
    requires { (ed.old.st.back < length ed.old.journal.now) × (len ≤ length line.now) × (is_line (take len line.now) ≡ true) }
    ensures { Does (λ j st k r. (c : Carried) → Completes c j st (gives (changes (retext (take len line.now) q ∷ []))) k r) ed.old ed.new result }
{
    let mut rec = [0u8; 514];
    let j = &mut *ed.journal;
    let c = record_anew(&mut rec, j, ed.st, line, len);
    let end = c.end;
    let n = c.n;
    let front = ed.st.front;
    if end - front < n {
        return Err(Stop::JournalFull);
    }
    ed.st = put_record(j, ed.st, end, &rec, n, q);
    Ok(())
}

// The first m bytes of `new` come for the n bytes of the current line from place i on, and p becomes q. 25: the line is over 255.
pub fn splice_current(
    table: &[u8],
    ed: &mut Editor<'_>,
    i: usize,
    n: usize,
    new: &[u8],
    m: usize,
    q: usize,
) -> Result<(), Stop>
    requires { HasLine table.now ed.old.journal.now ed.old.st (i + n) × (m ≤ length new.now) × (m ≤ 16384) × (all_text (take m new.now) ≡ true) }
    ensures { Does (λ j st. Writes table.now j st (i + n) (λ l. splice l i n (take m new.now)) q) ed.old ed.new result }
{
    let mut line = [0u8; 255];
    let j = &mut *ed.journal;
    let len = crate::look::splice_text(&mut line, table, j, ed.st, i, n, new, m);
    if 255 < len {
        return Err(Stop::LineLong);
    }
    rewrite_current(ed, &line, len, q)
}
