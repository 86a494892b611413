// The commands that change the current line's text, or p, on the journal buffer.
#![tactic(auto)]

pub mod look;
pub mod rewrite;

ghost use Rattle.std.specs.Prelude.{◌≡◌, true, ◌+◌, ◌≤◌, length};
ghost use Rattle.definitions.specs.Bytes.{all_text, lower as «lower_of»};
ghost use Rattle.definitions.specs.Given.{Carried};
ghost use Rattle.definitions.specs.Edit.{Op, altered_point, point_by as «point-by», cased as «cased_of»};
ghost use Rattle.text.specs.Lines.{part};
ghost use Rattle.wordset.specs.Sets.{in_set};
ghost use Rattle.matching.specs.Quals.{Formed};
ghost use Rattle.editor.specs.Edited.{Does};
ghost use Rattle.editor.specs.Shows.{Performs};
ghost use Rattle.editor.specs.Current.{ShownOf, PerformsOf, IsReady};
ghost use Rattle.changes.specs.Current.{change_of, change_numbered, sought, alter_of, StringsIn, PerformsTold, HasLine, Alters};

use editor::{Editor, Stop};
use matching::Quals;

// What comes in goes after the string (A), before it (B), or takes its place (E).
#[derive(Clone, Copy, Debug, PartialEq, Eq)]
pub enum Change {
    After,
    Before,
    Exchange,
}

// 0 is A, 1 is B, and every other number is E.
impl From<u8> for Change {
    ghost from_gives = { λ n change. change_of change ≡ change_numbered n };

    #[tactic(auto, unfolding(crate::specs::Current::change_of, crate::specs::Current::change_numbered))]
    fn from(n: u8) -> Change {
        match n {
            0 => Change::After,
            1 => Change::Before,
            _ => Change::Exchange,
        }
    }
}

// PR: p = 0.
pub fn point_start(ed: &mut Editor<'_>) -> Result<(), Stop>
    ensures { Does (λ j st k r. (k ≡ j) × ((c : Carried) → Performs c j st Op.point_start k r)) ed.old ed.new result }
{
    if ed.st.back >= ed.journal.len() {
        return Err(Stop::AtEof);
    }
    ed.st.p = 0;
    Ok(())
}

// <: p one to the left.
pub fn left(ed: &mut Editor<'_>) -> Result<(), Stop>
    ensures { Does (λ j st k r. (k ≡ j) × ((c : Carried) → Performs c j st Op.left k r)) ed.old ed.new result }
{
    if ed.st.back >= ed.journal.len() {
        return Err(Stop::AtEof);
    }
    if ed.st.p == 0 {
        return Err(Stop::PointAtEnd);
    }
    ed.st.p -= 1;
    Ok(())
}

// >: p one to the right.
pub fn right(table: &[u8], ed: &mut Editor<'_>) -> Result<(), Stop>
    requires { ShownOf table.now ed.old.journal.now ed.old.st }
    ensures { Does (λ j st k r. (k ≡ j) × PerformsOf table.now j st Op.right k r) ed.old ed.new result }
{
    let j = &mut *ed.journal;
    look::byte_here(table, j, ed.st)?;
    ed.st.p += 1;
    Ok(())
}

// Where p stands after a string of n bytes at place i, or before it.
pub fn point_by(after: bool, i: usize, n: usize) -> usize
    requires { i + n ≤ 255 }
    ensures { result ≡ «point-by» after i n }
{
    if after {
        return i + n;
    }
    i
}

// PA (after), PB: p after or before the string. The bytes of the set count for W.
pub fn point(
    set: &[u32],
    table: &[u8],
    ed: &mut Editor<'_>,
    after: bool,
    q: Quals,
    script: &[u8],
    from: usize,
    to: usize,
) -> Result<(), Stop>
    requires { (3 ≤ length set.now) × IsReady table.now ed.old.journal.now ed.old.st × (from ≤ to) × (to ≤ length script.now) × (to ≤ from + 255) × Formed q (part from to script.now) }
    ensures { Does (λ j st k r. (k ≡ j) × PerformsTold (in_set set.now 0) table.now j st (Op.point after (sought q script.now from to)) k r) ed.old ed.new result }
{
    let (i, n) = look::match_here(set, table, ed, q, script, from, to)?;
    ed.st.p = point_by(after, i, n);
    Ok(())
}

// #: the byte at p is deleted.
pub fn cut_byte(table: &[u8], ed: &mut Editor<'_>) -> Result<(), Stop>
    requires { ShownOf table.now ed.old.journal.now ed.old.st }
    ensures { Does (λ j st. PerformsOf table.now j st Op.cut_byte) ed.old ed.new result }
{
    let j = &mut *ed.journal;
    let x = look::byte_here(table, j, ed.st)?;
    let p = ed.st.p;
    rewrite::splice_current(table, ed, p, 1, &[x], 0, p)
}

// A to Z become a to z.
fn lower(b: u8) -> u8
    ensures { result ≡ «lower_of» b }
{
    if b < 65 {
        return b;
    }
    if b > 90 {
        return b;
    }
    b + 32
}

// A byte in upper case (up), or lower case.
fn cased(up: bool, b: u8) -> u8
    ensures { result ≡ «cased_of» up b }
{
    if up {
        return text::upper(b);
    }
    lower(b)
}

// % (up), $: the byte at p in upper or lower case, and p one to the right.
pub fn recase(table: &[u8], ed: &mut Editor<'_>, up: bool) -> Result<(), Stop>
    requires { ShownOf table.now ed.old.journal.now ed.old.st }
    ensures { Does (λ j st. PerformsOf table.now j st (Op.recase up)) ed.old ed.new result }
{
    let j = &mut *ed.journal;
    let x = look::byte_here(table, j, ed.st)?;
    let p = ed.st.p;
    rewrite::splice_current(table, ed, p, 1, &[cased(up, x)], 1, p + 1)
}

// Where p stands after a change: at a place i a string of n bytes was found, and m bytes come in.
fn point_after(change: Change, pointing: bool, p: usize, i: usize, n: usize, m: usize) -> usize
    requires { (i + n ≤ 255) × (m ≤ 16384) }
    ensures { result ≡ altered_point (change_of change) pointing p i n m }
{
    if !pointing {
        return p;
    }
    match change {
        Change::After => i + n + m,
        Change::Before => i + n + m,
        Change::Exchange => i + m,
    }
}

// A, B or E where the string of n bytes is found at place i of the current line.
fn alter_at(
    table: &[u8],
    ed: &mut Editor<'_>,
    change: Change,
    pointing: bool,
    i: usize,
    n: usize,
    new: &[u8],
) -> Result<(), Stop>
    requires { HasLine table.now ed.old.journal.now ed.old.st (i + n) × (length new.now ≤ 16384) × (all_text new.now ≡ true) }
    ensures { Does (λ j st. Alters table.now j st change pointing i n new.now) ed.old ed.new result }
{
    let m = new.len();
    let q = point_after(change, pointing, ed.st.p, i, n, m);
    match change {
        Change::After => rewrite::splice_current(table, ed, i + n, 0, new, m, q),
        Change::Before => rewrite::splice_current(table, ed, i, 0, new, m, q),
        Change::Exchange => rewrite::splice_current(table, ed, i, n, new, m, q),
    }
}

// A, B, E; with pointing AP, BP, EP. The bytes of the set count for W.
pub fn alter(
    set: &[u32],
    table: &[u8],
    ed: &mut Editor<'_>,
    change: Change,
    pointing: bool,
    q: Quals,
    script: &[u8],
    from: usize,
    to: usize,
    start: usize,
    end: usize,
) -> Result<(), Stop>
    requires { (3 ≤ length set.now) × IsReady table.now ed.old.journal.now ed.old.st × StringsIn script.now from to start end × (to ≤ from + 255) × Formed q (part from to script.now) }
    ensures { Does (λ j st. PerformsTold (in_set set.now 0) table.now j st (alter_of change pointing q script.now from to start end)) ed.old ed.new result }
{
    let (i, n) = look::match_here(set, table, ed, q, script, from, to)?;
    alter_at(table, ed, change, pointing, i, n, &script[start..end])
}
