// Insertion before the current line: IS and IC; and the line of a record deleted. What takes the buffer and its numbers, and no `Editor`, runs while they
// show no text: a line is put or struck in the middle of a command.
ghost use Rattle.std.specs.Prelude.{◌≡◌, List, [], ◌∷◌, ℕ, ◌+◌, ◌≤◌, length, take, drop};
ghost use Rattle.std.proofs.Math.Option.{none};
ghost use Rattle.definitions.specs.Journal.{Record};
ghost use Rattle.definitions.specs.Given.{Carried};
ghost use Rattle.definitions.specs.Edit.{Op};
ghost use Rattle.editor.specs.Records.{enc_before, LineIn};
ghost use Rattle.editor.specs.Shows.{Holds, HoldsCut, Performs, Puts, Strikes, Cuts};
ghost use Rattle.editor.specs.Current.{ShownOf, PerformsOf};

use crate::{Editor, State, Stop};

// The n bytes of s from `from` on become an inserted record before the current one. There is room for it.
pub fn put_line(j: &mut [u8], st: State, s: &[u8], from: usize, n: usize) -> State
    requires { ((b : List Record) × (a : List Record) × Holds j.old st b a) × LineIn s.now from n × (st.front + (n + 3) ≤ st.back) }
    ensures { Puts (take n (drop from s.now) ∷ []) j.old st j.new result }
{
    let f = st.front;
    j[f] = 43;
    j[f + 1] = 43;
    let at = f + 2;
    text::copies::copy_in(j, at, s, from, n);
    let end = at + n;
    j[end] = 10;
    let mut r = st;
    r.front = end + 1;
    r
}

// The record from f up to the gap is of a changed line, but for its mark, which is that of a deleted one: its new text goes.
fn cut_new(j: &mut [u8], st: State, f: usize) -> State
    requires { (o : List ℕ) × (n : List ℕ) × (b : List Record) × (a : List Record) × HoldsCut j.old st f o n b a }
    ensures { Cuts f j.old st j.new result }
{
    let z = crate::walk::zero_after(j, f);
    let end = st.front;
    j[z] = 10;
    let from = z + 1;
    let n = end - from;
    gap::clear(j, from, n);
    let mut s = st;
    s.front = from;
    s
}

// The line of the record from f up to the gap is deleted.
pub fn strike_record(j: &mut [u8], st: State, f: usize) -> State
    requires { (x : Record) × (b : List Record) × (a : List Record) × Holds j.old st (x ∷ b) a × (length (enc_before b) ≡ f) }
    ensures { Strikes f j.old st j.new result }
{
    let m = j[f];
    if m == 43 {
        let n = st.front - f;
        gap::clear(j, f, n);
        let mut s = st;
        s.front = f;
        return s;
    }
    j[f] = 45;
    j[f + 1] = 45;
    if m == 60 {
        return cut_new(j, st, f);
    }
    st
}

impl<'a> Editor<'a> {
    ghost use Rattle.editor.specs.Edited.{Does};

    // IS: the n bytes of s from `from` on are inserted before the current line.
    pub fn insert_line(&mut self, s: &[u8], from: usize, n: usize) -> Result<(), Stop>
        requires { LineIn s.now from n }
        ensures { Does (λ j st k r. (c : Carried) → Performs c j st (Op.insert none (take n (drop from s.now) ∷ [])) k r) self.old self.new result }
    {
        let room = self.st.back - self.st.front;
        if room < n + 3 {
            return Err(Stop::JournalFull);
        }
        let j = &mut *self.journal;
        self.st = put_line(j, self.st, s, from, n);
        Ok(())
    }

    // IC: a copy of the current line is inserted before it.
    pub fn copy_line(&mut self, table: &[u8]) -> Result<(), Stop>
        requires { ShownOf table.now self.old.journal.now self.old.st }
        ensures { Does (λ j st. PerformsOf table.now j st Op.copy) self.old self.new result }
    {
        if self.st.back >= self.journal.len() {
            return Err(Stop::AtEof);
        }
        // The text may be a part of the journal, which is written.
        let mut line = [0u8; 256];
        let n = self.copy_current(&mut line, table);
        self.insert_line(&line, 0, n)
    }
}
