// What a step of the run asks of the editor, done on the journal buffer.
#![tactic(auto)]

ghost use Rattle.std.specs.Prelude.{◌≡◌, ◌+◌, ◌≤◌, ◌<◌, length, get_or};
ghost use Rattle.globals.specs.Standing.{OnlyCarried};
ghost use Rattle.reading.specs.Carrying.{SomeStand};
ghost use Rattle.seeks.specs.Looks.{holding};
ghost use Rattle.seeks.specs.Edited.{LooksOn, SeeksOn};
ghost use Rattle.steps.specs.Steps.{ask_test, ask_look, Asking, LooksAsked, AsksSome, Commanding, Commanded, Wanting, AnswersStep};

use control::{Ask, Wanted};
use editor::{Editor, Stop};
use items::heads::{is_global, kind_of};
use items::kinds::{CANCEL, WORD_SET};
use seeks::{Sought, Way};

// One step was made.
fn once(looked: Result<bool, Stop>) -> Sought
    ensures { result ≡ record { looked = looked; made = 1 } }
{
    Sought { looked, made: 1 }
}

// The end of the search in the words of the item.
fn search_end(w: &[u32], item: usize) -> usize
    requires { item + 1 < length w.now }
    ensures { result ≡ get_or w.now (item + 1) 0 }
{
    w[item + 1] as usize
}

// The test of IF or WH, with `holds` true; of UL or UT, with `holds` false.
fn test(script: &[u8], table: &[u8], w: &[u32], x: Wanted, ed: &Editor<'_>, holds: bool) -> bool
    requires { SomeStand script.now w.now × Asking (AsksSome script.now w.now x) table.now ed.now.journal.now ed.now.st × (x.what ≡ ask_test holds) }
    ensures { LooksAsked script.now w.now (AsksSome script.now w.now x) table.now ed.now.journal.now ed.now.st ed.now.journal.now (holding result ed.now.st) }
{
    let item = x.item;
    let k = item + 2;
    let m = search_end(w, item);
    seeks::test(script, w, k, m, table, ed.journal, ed.st, holds)
}

// Which way the search goes whose test of a line is asked.
fn way_of(what: Ask) -> Way
    requires { (way : Way) × (what ≡ ask_look way) }
    ensures { what ≡ ask_look result }
{
    match what {
        Ask::Find => Way::Forward,
        Ask::FindBack => Way::Backward,
        _ => Way::Deleting,
    }
}

// F, BF or DF from the current line on. Where none of `left` lines matches, the budget is spent.
fn search(
    script: &[u8],
    table: &[u8],
    w: &[u32],
    x: Wanted,
    ed: &mut Editor<'_>,
    way: Way,
    left: usize,
) -> Sought
    requires { Wanting script.now w.now x table.now ed.old.journal.now ed.old.st × (x.what ≡ ask_look way) × (1 ≤ left) × (x.lines + left ≤ 18446744073709551615) }
    ensures { SeeksOn (λ j st. AnswersStep script.now w.now x table.now j st left w.now) ed.old ed.new result }
{
    let item = x.item;
    let k = item + 2;
    let m = search_end(w, item);
    let r = seeks::seek(script, w, k, m, table, ed, way, x.lines, left);
    let Ok(held) = r.looked else {
        return r;
    };
    if held {
        return r;
    }
    Sought {
        looked: Err(Stop::BudgetSpent),
        made: r.made,
    }
}

// A simple command. GE, GA, GB and CG change the globals that stand, WORD the word set, and nothing else; a seventeenth global stops with 31.
fn command(
    script: &[u8],
    table: &[u8],
    w: &mut [u32],
    item: usize,
    ed: &mut Editor<'_>,
) -> Result<bool, Stop>
    requires { Commanding script.now w.old item table.now ed.old.journal.now ed.old.st }
    ensures commanded { LooksOn (λ j st. Commanded script.now w.old item table.now j st w.new) ed.old ed.new result }
    ensures only_carried { OnlyCarried w.old w.new }
{
    let kind = kind_of(w, item);
    if is_global(kind) {
        if globals::keep(w, item) {
            return Ok(true);
        }
        return Err(Stop::GlobalsFull);
    }
    if kind == CANCEL {
        globals::forget(w);
        return Ok(true);
    }
    if kind == WORD_SET {
        globals::name_words(w, item);
        return Ok(true);
    }
    commands::perform(script, table, w, item, ed)?;
    Ok(true)
}

// The step that is wanted, and of a search all the steps that follow it, at most `left`.
pub fn answer_step(
    script: &[u8],
    table: &[u8],
    w: &mut [u32],
    x: Wanted,
    ed: &mut Editor<'_>,
    left: usize,
) -> Sought
    requires { Wanting script.now w.old x table.now ed.old.journal.now ed.old.st × (1 ≤ left) × (x.lines + left ≤ 18446744073709551615) }
    ensures answers_step { SeeksOn (λ j st. AnswersStep script.now w.old x table.now j st left w.new) ed.old ed.new result }
    ensures only_carried { OnlyCarried w.old w.new }
{
    let what = x.what;
    match what {
        Ask::Round => once(Ok(true)),
        Ask::Holds => once(Ok(test(script, table, w, x, ed, true))),
        Ask::HoldsNot => once(Ok(test(script, table, w, x, ed, false))),
        Ask::AtEof => once(Ok(seeks::test_eof(ed))),
        Ask::Begin => once(seeks::begin(ed)),
        Ask::BeginBack => once(seeks::begin_back(ed)),
        Ask::Command => once(command(script, table, w, x.item, ed)),
        // One call for the three: only so does the compiler make it a part of the loop over the steps, and no step's answer goes through memory.
        Ask::Find | Ask::FindBack | Ask::FindDelete => {
            search(script, table, w, x, ed, way_of(what), left)
        }
    }
}
