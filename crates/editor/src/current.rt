// The current line's text, of the table until the line's first change and of the journal afterwards.
ghost use Rattle.std.specs.Prelude.{◌≡◌, ◌≤◌, ◌<◌, length};
ghost use Rattle.definitions.specs.Tape.{Tape};
ghost use Rattle.definitions.specs.Editor.{Ed};
ghost use Rattle.editor.specs.Shows.{Shows};
ghost use Rattle.editor.specs.Current.{TableOf, current_line, ShownOf, CopiesLine};

use crate::{Editor, State};

// The text of the current line: a part of the table where the line is kept, and else of the journal.
pub fn current_line<'a>(table: &'a [u8], j: &'a [u8], st: State) -> &'a [u8]
    requires { ((e : Ed) × (t : Tape) × Shows j.now st e t × TableOf table.now e t) × (st.back < length j.now) }
    ensures { (e : Ed) (t : Tape) → Shows j.now st e t → TableOf table.now e t → result.now ≡ current_line e }
{
    let at = st.back;
    if j[at] == 61 {
        let from = st.source;
        let to = text::feeds::place_after(table, from, 10);
        return &table[from..to];
    }
    let x = crate::walk::text_at(j, at);
    let from = x.from;
    let to = from + x.n;
    &j[from..to]
}

impl<'a> Editor<'a> {
    // The same of an editor.
    pub fn current_line<'b>(&'b self, table: &'b [u8]) -> &'b [u8]
        requires { ((e : Ed) × (t : Tape) × Shows self.now.journal.now self.now.st e t × TableOf table.now e t) × (self.now.st.back < length self.now.journal.now) }
        ensures { (e : Ed) (t : Tape) → Shows self.now.journal.now self.now.st e t → TableOf table.now e t → result.now ≡ current_line e }
    {
        current_line(table, self.journal, self.st)
    }

    // The same text, copied to the start of `line`: its length.
    pub fn copy_current(&self, line: &mut [u8], table: &[u8]) -> usize
        requires { ShownOf table.now self.now.journal.now self.now.st × (self.now.st.back < length self.now.journal.now) × (255 ≤ length line.old) }
        ensures { CopiesLine table.now self.now.journal.now self.now.st line.old line.new result }
    {
        let text = self.current_line(table);
        let n = text.len();
        text::copies::copy_in(line, 0, text, 0, n);
        n
    }
}
