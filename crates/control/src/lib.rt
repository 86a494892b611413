// Which step comes next: the control machine over the items in the work area. It never sees the editor.
#![tactic(auto)]

mod bodies;

ghost use Rattle.std.specs.Prelude.{◌≡◌, cond, List, ℕ, ◌+◌, ◌<◌, ◌≤◌, length};
ghost use Rattle.definitions.specs.Control.{Item, Frame, Ctl};
ghost use Rattle.control.specs.Shown.{ItemsFrom, InFrames, Runs, ShowsPoint, ShowsCtl, passed, stand_at, wants_at, begin_by, look_by, begin_at};
ghost use Rattle.control.specs.Answers.{SkipsItem, FailsItem, PassesItem, RunsItem, StepsFrom, LooksFrom, PullsItems, PullsFrom};

use bodies::{end_body, leave_to, push, start_body};
use items::ends::{Class, here};
use items::heads::{kind_of, place_of};
use items::kinds;

// How the run stands among the items: at an item; to go on after that many closes; at the ELSE, or after the close, of a test that failed, that many
// bodies deep; after the next line end.
#[derive(Clone, Copy)]
pub enum Mode {
    Running,
    Skipping(usize),
    Failing(usize),
    Leaving,
}

// A place among the items: how the run stands, the index of the next item, and how many bodies are open.
#[derive(Clone, Copy)]
pub struct Point {
    pub mode: Mode,
    pub at: usize,
    pub depth: usize,
}

// Where the run stands: among the items; or in the search of the item `item`, which has passed `lines` lines and goes on at `to`.
#[derive(Clone, Copy)]
pub enum Control {
    Items(Point),
    Seeking {
        item: usize,
        lines: usize,
        to: Point,
    },
}

// What a step asks of the editor.
#[derive(Clone, Copy)]
pub enum Ask {
    // Nothing: a round, or AGP.
    Round,
    // The test of IF or WH, of UL or UT, of IFEOF.
    Holds,
    HoldsNot,
    AtEof,
    // To begin a search: F or DF, BF.
    Begin,
    BeginBack,
    // The test of a line: F, BF, DF.
    Find,
    FindBack,
    FindDelete,
    // A simple command.
    Command,
}

// A step that is wanted: what it asks, its place in the script, the index of its item, the lines that DF has passed, and how the run goes on
// after the answer true and after the answer false.
#[derive(Clone, Copy)]
pub struct Wanted {
    pub what: Ask,
    pub place: usize,
    pub item: usize,
    pub lines: usize,
    pub yes: Control,
    pub no: Control,
}

// What an item leads to: another point without a step between, or what comes next: the step that is wanted, or none at the end.
#[derive(Clone, Copy)]
pub enum Step {
    On(Point),
    Gives(Option<Wanted>),
}

// Where the run stands among the items.
fn stand(mode: Mode, at: usize, depth: usize) -> Point
    ensures { result ≡ stand_at mode at depth }
{
    Point { mode, at, depth }
}

// A step is wanted, outside a search.
fn wants(what: Ask, place: usize, item: usize, yes: Point, no: Point) -> Step
    ensures { result ≡ wants_at what place item yes no }
{
    Step::Gives(Some(Wanted {
        what,
        place,
        item,
        lines: 0,
        yes: Control::Items(yes),
        no: Control::Items(no),
    }))
}

// Passes the item at `at`, to go on after the `count`th close.
fn skip_item(w: &[u32], at: usize, depth: usize, count: usize) -> Point
    requires { ((s : List ℕ) × (end : ℕ) × (items : List Item) × (frames : List Frame) × InFrames s w.now end at depth (depth + count) items frames × (at < end)) × (1 ≤ count) }
    ensures { SkipsItem w.now at depth count result }
{
    let seen = here(w, at);
    let next = seen.next;
    match seen.class {
        Class::Opens => stand(Mode::Skipping(count + 1), next, depth),
        Class::Close => {
            if count == 1 {
                return stand(Mode::Running, next, depth);
            }
            stand(Mode::Skipping(count - 1), next, depth)
        }
        _ => stand(Mode::Skipping(count), next, depth),
    }
}

// Passes the item at `at`, to go on at the ELSE, or after the close, of a test that failed, `count` bodies deep.
fn else_item(w: &mut [u32], end: usize, at: usize, depth: usize, count: usize) -> Point
    requires { ((s : List ℕ) × (items : List Item) × (frames : List Frame) × InFrames s w.old end at depth (depth + count) items frames) × (at < end) × (1 ≤ count) }
    ensures { FailsItem w.old w.new end at depth count result }
{
    let seen = here(w, at);
    let next = seen.next;
    match seen.class {
        Class::Opens => stand(Mode::Failing(count + 1), next, depth),
        Class::Close => {
            if count == 1 {
                return stand(Mode::Running, next, depth);
            }
            stand(Mode::Failing(count - 1), next, depth)
        }
        Class::Else => {
            if count == 1 {
                push(w, end, depth, at, 0);
                return stand(Mode::Running, next, depth + 1);
            }
            stand(Mode::Failing(count), next, depth)
        }
        _ => stand(Mode::Failing(count), next, depth),
    }
}

// Passes the item at `at`, to go on after the next line end.
fn line_item(w: &[u32], at: usize) -> Point
    requires { (s : List ℕ) × (end : ℕ) × (d : ℕ) × (items : List Item) × ItemsFrom s w.now end at d items × (at < end) }
    ensures { PassesItem w.now at result }
{
    let seen = here(w, at);
    let next = seen.next;
    match seen.class {
        Class::LineEnd => stand(Mode::Running, next, 0),
        _ => stand(Mode::Leaving, next, 0),
    }
}

// What begins a search of this kind.
#[tactic(auto, unfolding(crate::specs::Shown::begin_by))]
fn begin_of(kind: u32) -> Ask
    ensures { result ≡ begin_by kind }
{
    match kind {
        kinds::FIND_BACK => Ask::BeginBack,
        _ => Ask::Begin,
    }
}

// The step that begins the search at `at`.
fn begin_search(w: &[u32], at: usize, next: usize, depth: usize) -> Step
    requires { at < length w.now }
    ensures { result ≡ begin_at w.now at next depth }
{
    let on = Control::Seeking {
        item: at,
        lines: 0,
        to: stand(Mode::Running, next, depth),
    };
    Step::Gives(Some(Wanted {
        what: begin_of(kind_of(w, at)),
        place: place_of(w, at),
        item: at,
        lines: 0,
        yes: on,
        no: on,
    }))
}

// Runs the item at `at`.
fn run_item(w: &mut [u32], end: usize, at: usize, depth: usize) -> Step
    requires { ((s : List ℕ) × (items : List Item) × (frames : List Frame) × Runs s w.old end at depth items frames) × (at < end) }
    ensures { RunsItem w.old w.new end at depth result }
{
    let seen = here(w, at);
    let next = seen.next;
    match seen.class {
        Class::Opens => start_body(w, end, at, next, depth),
        Class::Seeks => begin_search(w, at, next, depth),
        Class::Simple => {
            let on = stand(Mode::Running, next, depth);
            wants(Ask::Command, place_of(w, at), at, on, on)
        }
        Class::Agp => {
            let on = leave_to(w, end, next, depth);
            wants(Ask::Round, place_of(w, at), at, on, on)
        }
        Class::LineEnd => Step::On(stand(Mode::Running, next, depth)),
        // The others stand in bodies: outside all of them the run is at its end.
        _ => {
            if depth == 0 {
                return Step::Gives(None);
            }
            match seen.class {
                Class::Bracket => Step::On(stand(Mode::Running, next, depth)),
                Class::Else => Step::On(stand(Mode::Skipping(1), next, depth - 1)),
                _ => end_body(w, end, next, depth),
            }
        }
    }
}

// One item, by how the run stands.
fn item_step(w: &mut [u32], end: usize, c: Point) -> Step
    requires { ((s : List ℕ) × (from : Ctl) × ShowsPoint s w.old end c from) × (c.at < end) }
    ensures { StepsFrom w.old w.new end c result }
{
    let mode = c.mode;
    match mode {
        Mode::Running => run_item(w, end, c.at, c.depth),
        Mode::Skipping(count) => Step::On(skip_item(w, c.at, c.depth, count)),
        Mode::Failing(count) => Step::On(else_item(w, end, c.at, c.depth, count)),
        Mode::Leaving => Step::On(line_item(w, c.at)),
    }
}

// What tests a line in a search of this kind.
#[tactic(auto, unfolding(crate::specs::Shown::look_by))]
fn look_of(kind: u32) -> Ask
    ensures { result ≡ look_by kind }
{
    match kind {
        kinds::FIND => Ask::Find,
        kinds::FIND_BACK => Ask::FindBack,
        _ => Ask::FindDelete,
    }
}

// The test of a line in a search that has passed `lines` lines.
fn look(w: &[u32], item: usize, lines: usize, to: Point) -> Wanted
    requires { ((s : List ℕ) × (end : ℕ) × (from : Ctl) × ShowsCtl s w.now end (Control.Seeking item lines to) from) × (lines < 18446744073709551615) }
    ensures { LooksFrom w.now item lines to result }
{
    Wanted {
        what: look_of(kind_of(w, item)),
        place: place_of(w, item),
        item,
        lines,
        yes: Control::Items(to),
        no: Control::Seeking {
            item,
            lines: lines + 1,
            to,
        },
    }
}

// The start of a run.
pub fn start() -> Control
    ensures { result ≡ Control.Items (stand_at Mode.Running 0 0) }
{
    Control::Items(stand(Mode::Running, 0, 0))
}

// What comes next from a place among the items.
fn pull_items(w: &mut [u32], end: usize, c: Point) -> Option<Wanted>
    requires { (s : List ℕ) × (from : Ctl) × ShowsPoint s w.old end c from }
    ensures { PullsItems w.old w.new end c result }
{
    let mut point = c;
    while point.at < end {
        let step = item_step(w, end, point);
        match step {
            Step::On(on) => {
                point = on;
            }
            Step::Gives(next) => {
                return next;
            }
        }
    }
    None
}

// What comes next from where the run stands: the step that is wanted, or none at the end. The words below `end` stay, and those of the reserve.
pub fn pull(w: &mut [u32], end: usize, c: Control) -> Option<Wanted>
    requires { ((s : List ℕ) × (from : Ctl) × ShowsCtl s w.old end c from) × (passed c < 18446744073709551615) }
    ensures { PullsFrom w.old w.new end c result }
{
    match c {
        Control::Items(point) => pull_items(w, end, point),
        Control::Seeking { item, lines, to } => Some(look(w, item, lines, to)),
    }
}

// How the run goes on after the answer.
pub fn go_on(x: Wanted, answer: bool) -> Control
    ensures { result ≡ cond answer x.yes x.no }
{
    if answer { x.yes } else { x.no }
}
