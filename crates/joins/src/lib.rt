// CL: the current line, a string and the next live line become one line.
#![tactic(auto)]

mod texts;

ghost use Rattle.std.specs.Prelude.{◌≡◌, true, ◌≤◌, length, take, drop};
ghost use Rattle.definitions.specs.Bytes.{is_line};
ghost use Rattle.editor.specs.Records.{LineIn};
ghost use Rattle.editor.specs.Current.{ShownOf};
ghost use Rattle.editor.specs.Edited.{Does};
ghost use Rattle.joins.specs.Joining.{HasNext, JoinsLines, Joins};

use editor::{Editor, Stop};

// The current line's text becomes the first len bytes of line, p becomes q, and the next live line, whose record stands at `at`, is deleted. The room is
// tested for both before one of them is done: what the deletion frees is room for the text.
fn join_at(ed: &mut Editor<'_>, at: usize, line: &[u8], len: usize, q: usize) -> Result<(), Stop>
    requires { HasNext ed.old.journal.now ed.old.st at × (len ≤ length line.now) × (is_line (take len line.now) ≡ true) }
    ensures { Does (λ j st. JoinsLines j st at (take len line.now) q) ed.old ed.new result }
{
    let mut rec = [0u8; 514];
    let j = &mut *ed.journal;
    let c = changes::rewrite::record_anew(&mut rec, j, ed.st, line, len);
    let n = c.n;
    let freed = spans::striking::freed_at(j, at, editor::walk::record_end(j, at));
    let end = c.end + freed;
    let front = ed.st.front;
    if end - front < n {
        return Err(Stop::JournalFull);
    }
    let s = spans::striking::strike_at(j, ed.st, at);
    ed.st = changes::rewrite::put_record(j, s, end, &rec, n, q);
    Ok(())
}

// CL: the string is the n bytes of s from `from` on.
pub fn join(table: &[u8], ed: &mut Editor<'_>, s: &[u8], from: usize, n: usize) -> Result<(), Stop>
    requires { ShownOf table.now ed.old.journal.now ed.old.st × LineIn s.now from n }
    ensures { Does (λ j st. Joins table.now j st (take n (drop from s.now))) ed.old ed.new result }
{
    if ed.st.back >= ed.journal.len() {
        return Err(Stop::AtEof);
    }
    let j = &mut *ed.journal;
    let next = spans::finding::read_next(j, ed.st);
    let at = next.at;
    if at >= j.len() {
        ed.st = next.st;
        return Err(Stop::NoNext);
    }
    let u = next.st;
    let mut line = [0u8; 255];
    let len = texts::join_text(&mut line, table, ed, at, s, from, n);
    let p = ed.st.p;
    ed.st = u;
    if 255 < len {
        return Err(Stop::LineLong);
    }
    join_at(ed, at, &line, len, p)
}
