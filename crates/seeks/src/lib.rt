// Tests and searches on the journal buffer: IF, WH, UL, UT, IFEOF, F, BF and DF.
#![tactic(auto)]

ghost use Rattle.std.specs.Prelude.{◌≡◌, true, ◌+◌, ◌≤◌, ◌<◌, length, Ok};
ghost use Rattle.definitions.specs.Editor.{stop_number};
ghost use Rattle.definitions.specs.Edit.{Op, Test, go_ahead, look_on, look_back};
ghost use Rattle.definitions.specs.Control.{look_op};
ghost use Rattle.editor.specs.Stops.{numbered};
ghost use Rattle.editor.specs.Edited.{Does};
ghost use Rattle.reading.specs.Carrying.{SomeStand, DoesPartBy};
ghost use Rattle.seeks.specs.Looks.{LooksBy, LooksCarrying, LooksOnce, Searchable, Tells, LooksForCarrying};
ghost use Rattle.seeks.specs.Looks.{test_of, seek_of, eof_stop, where_found, where_not, holding, SeeksFor};
ghost use Rattle.seeks.specs.Edited.{looked_by, LooksOn, SeeksOn};

use editor::{Editor, State, Stop};

// What a search over lines comes to, and how many steps it made: those before a stop too.
#[derive(Clone, Copy)]
pub struct Sought {
    pub looked: Result<bool, Stop>,
    pub made: usize,
}

// F, BF, DF.
#[derive(Clone, Copy)]
pub enum Way {
    Forward,
    Backward,
    Deleting,
}

// Does the search in the words from k to m hold on the current line, with the window from p, or at EOF. The bytes of the word set count for W.
pub fn holds_here<'a>(
    script: &[u8],
    words: &[u32],
    k: usize,
    m: usize,
    table: &'a [u8],
    j: &'a [u8],
    st: State,
) -> bool
    requires { SomeStand script.now words.now × Searchable script.now words.now k m table.now j.now st }
    ensures { Tells script.now words.now k m table.now j.now st result }
{
    let at = st.back;
    if at >= j.len() {
        return matching::search::holds_at_eof(words, k, m);
    }
    let line = editor::current::current_line(table, j, st);
    matching::search::holds(script, words, k, m, globals::word_set(words), line, st.p)
}

// IF and WH, with `holds` true; UL and UT, with `holds` false.
pub fn test<'a>(
    script: &[u8],
    words: &[u32],
    k: usize,
    m: usize,
    table: &'a [u8],
    j: &'a [u8],
    st: State,
    holds: bool,
) -> bool
    requires { SomeStand script.now words.now × Searchable script.now words.now k m table.now j.now st }
    ensures { LooksForCarrying script.now words.now k m table.now j.now st (λ se. Op.test (test_of holds se)) j.now (holding result st) }
{
    holds_here(script, words, k, m, table, j, st) == holds
}

// IFEOF.
pub fn test_eof(ed: &Editor<'_>) -> bool
    ensures { LooksOnce ed.now.journal.now ed.now.st (Op.test Test.is_eof) ed.now.journal.now (holding result ed.now.st) }
{
    ed.st.back >= ed.journal.len()
}

// F and DF begin: not at EOF.
pub fn begin(ed: &Editor<'_>) -> Result<bool, Stop>
    ensures { LooksOnce ed.now.journal.now ed.now.st Op.begin ed.now.journal.now (looked_by result ed.now.st) }
{
    if ed.st.back >= ed.journal.len() {
        return Err(Stop::MetEof);
    }
    Ok(true)
}

// BF begins: at EOF, from the last live line.
pub fn begin_back(ed: &mut Editor<'_>) -> Result<bool, Stop>
    ensures { LooksOn (λ j st. LooksOnce j st Op.begin_back) ed.old ed.new result }
{
    if ed.st.back < ed.journal.len() {
        return Ok(true);
    }
    ed.go_back()?;
    Ok(true)
}

// F and DF: on to the next live line, which is read through the globals that stand.
fn go_on(script: &[u8], words: &[u32], ed: &mut Editor<'_>) -> Result<(), Stop>
    requires { SomeStand script.now words.now × (ed.old.st.back < length ed.old.journal.now) }
    ensures { Does (λ j st. DoesPartBy script.now words.now j st go_ahead) ed.old ed.new result }
{
    if globals::none_stands(words) {
        ed.go_ahead();
        return Ok(());
    }
    spans::ahead::go_ahead(script, words, ed)
}

// The same, and EOF stops them.
fn look_on(script: &[u8], words: &[u32], ed: &mut Editor<'_>) -> Result<bool, Stop>
    requires { SomeStand script.now words.now × (ed.old.st.back < length ed.old.journal.now) }
    ensures { LooksOn (λ j st. LooksCarrying script.now words.now j st look_on) ed.old ed.new result }
{
    go_on(script, words, ed)?;
    if ed.st.back >= ed.journal.len() {
        return Err(Stop::MetEof);
    }
    Ok(false)
}

// BF: back to the previous live line.
fn look_back(ed: &mut Editor<'_>) -> Result<bool, Stop>
    ensures { LooksOn (λ j st. LooksBy j st look_back) ed.old ed.new result }
{
    ed.go_back()?;
    Ok(false)
}

// The current line does not match: on to the next one.
fn look_further(script: &[u8], words: &[u32], ed: &mut Editor<'_>, way: Way) -> Result<bool, Stop>
    requires { SomeStand script.now words.now × (ed.old.st.back < length ed.old.journal.now) }
    ensures { LooksOn (λ j st. LooksCarrying script.now words.now j st (where_not (seek_of way))) ed.old ed.new result }
{
    match way {
        Way::Forward => look_on(script, words, ed),
        Way::Backward => look_back(ed),
        Way::Deleting => look_on(script, words, ed),
    }
}

// The current line matches: DF deletes the lines that it has passed.
fn found(ed: &mut Editor<'_>, way: Way, lines: usize)
    ensures { LooksOn (λ j st. LooksBy j st (where_found (seek_of way) lines)) ed.old ed.new (Ok true) }
{
    match way {
        Way::Forward => {}
        Way::Backward => {}
        Way::Deleting => {
            let j = &mut *ed.journal;
            ed.st = spans::striking::strike_back(j, ed.st, lines);
        }
    }
}

// How a search stops at EOF.
fn stop_at_eof(way: Way) -> Stop
    ensures { numbered result ≡ stop_number (eof_stop (seek_of way)) }
{
    match way {
        Way::Forward => Stop::MetEof,
        Way::Backward => Stop::NoPrevious,
        Way::Deleting => Stop::MetEof,
    }
}

// A search on one line, `lines` lines being passed: found here, or on to the next line.
fn look(
    script: &[u8],
    words: &[u32],
    k: usize,
    m: usize,
    table: &[u8],
    ed: &mut Editor<'_>,
    way: Way,
    lines: usize,
) -> Result<bool, Stop>
    requires { SomeStand script.now words.now × Searchable script.now words.now k m table.now ed.old.journal.now ed.old.st }
    ensures { LooksOn (λ j st. LooksForCarrying script.now words.now k m table.now j st (λ se. look_op (seek_of way) se lines)) ed.old ed.new result }
{
    if ed.st.back >= ed.journal.len() {
        return Err(stop_at_eof(way));
    }
    let j = &mut *ed.journal;
    if holds_here(script, words, k, m, table, j, ed.st) {
        found(ed, way, lines);
        return Ok(true);
    }
    look_further(script, words, ed, way)
}

// F, BF or DF: live lines are tested until one matches, the current line first, at most `left` of them, `lines` being passed before.
pub fn seek(
    script: &[u8],
    words: &[u32],
    k: usize,
    m: usize,
    table: &[u8],
    ed: &mut Editor<'_>,
    way: Way,
    lines: usize,
    left: usize,
) -> Sought
    requires { SomeStand script.now words.now × Searchable script.now words.now k m table.now ed.old.journal.now ed.old.st × (lines + left ≤ 18446744073709551615) }
    ensures { SeeksOn (λ j st. SeeksFor script.now words.now k m table.now j st (seek_of way) lines left) ed.old ed.new result }
{
    let mut made: usize = 0;
    let looked = loop {
        if made >= left {
            break Ok(false);
        }
        let passed = lines + made;
        made += 1;
        let looked = look(script, words, k, m, table, ed, way, passed);
        let Ok(here) = looked else {
            break looked;
        };
        if here {
            break looked;
        }
    };
    Sought { looked, made }
}
