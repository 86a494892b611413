// SA and SB: the current line cut in two.
#![tactic(auto)]

ghost use Rattle.std.specs.Prelude.{◌≡◌, true, ◌+◌, ◌≤◌, ◌<◌, length};
ghost use Rattle.definitions.specs.Bytes.{is_line};
ghost use Rattle.definitions.specs.Given.{Carried};
ghost use Rattle.definitions.specs.Edit.{Op, cut_after};
ghost use Rattle.editor.specs.Shows.{Completes};
ghost use Rattle.editor.specs.Edited.{Does};
ghost use Rattle.text.specs.Lines.{part};
ghost use Rattle.wordset.specs.Sets.{in_set};
ghost use Rattle.matching.specs.Quals.{Formed};
ghost use Rattle.editor.specs.Current.{IsReady};
ghost use Rattle.changes.specs.Current.{sought, PerformsTold, HasLine, CompletesAt};

use editor::{Editor, Stop};
use matching::Quals;

// The current line, which reads `line`, is cut after k bytes: these are inserted before it, the rest is its text, and p is 0. The room is tested
// for both records before one of them is written.
fn cut_line(ed: &mut Editor<'_>, line: &[u8], k: usize) -> Result<(), Stop>
    requires { (ed.old.st.back < length ed.old.journal.now) × (k ≤ length line.now) × (is_line line.now ≡ true) }
    ensures { Does (λ j st x r. (c : Carried) → Completes c j st (cut_after line.now k) x r) ed.old ed.new result }
{
    let n = line.len();
    let mut rec = [0u8; 514];
    let j = &mut *ed.journal;
    let c = changes::rewrite::record_anew(&mut rec, j, ed.st, &line[k..n], n - k);
    let end = c.end;
    let size = c.n;
    let front = ed.st.front;
    if end - front < size + (k + 3) {
        return Err(Stop::JournalFull);
    }
    let s = changes::rewrite::put_record(j, ed.st, end, &rec, size, 0);
    ed.st = editor::edits::put_line(j, s, line, 0, k);
    Ok(())
}

// The same of the current line as it reads.
fn cut_here(table: &[u8], ed: &mut Editor<'_>, k: usize) -> Result<(), Stop>
    requires { HasLine table.now ed.old.journal.now ed.old.st k }
    ensures { Does (λ j st. CompletesAt table.now j st k (λ l. cut_after l k)) ed.old ed.new result }
{
    // The text may be a part of the journal, which is written.
    let mut line = [0u8; 256];
    let n = ed.copy_current(&mut line, table);
    cut_line(ed, &line[0..n], k)
}

// SA (after), SB: the line is cut after or before the string. The bytes of the set count for W.
pub fn split(
    set: &[u32],
    table: &[u8],
    ed: &mut Editor<'_>,
    after: bool,
    q: Quals,
    script: &[u8],
    from: usize,
    to: usize,
) -> Result<(), Stop>
    requires { (3 ≤ length set.now) × IsReady table.now ed.old.journal.now ed.old.st × (from ≤ to) × (to ≤ length script.now) × (to ≤ from + 255) × Formed q (part from to script.now) }
    ensures { Does (λ j st. PerformsTold (in_set set.now 0) table.now j st (Op.split after (sought q script.now from to))) ed.old ed.new result }
{
    let (i, n) = changes::look::match_here(set, table, ed, q, script, from, to)?;
    cut_here(table, ed, changes::point_by(after, i, n))
}
