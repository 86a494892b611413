// The end of a run: the journal comes to the start of its buffer, its records arranged (document 02, wish 6), its lines ended. The run's `Editor` is gone.
#![tactic(auto)]

pub mod arranging;
pub mod ending;

ghost use Rattle.std.specs.Prelude.{List};
ghost use Rattle.definitions.specs.Journal.{Record};
ghost use Rattle.editor.specs.Shows.{Holds};
ghost use Rattle.closing.specs.Closing.{ClosesJournal};

use editor::State;

// The journal from the buffer's start on, zeros after it. Its length is handed back.
pub fn close_journal(j: &mut [u8], st: State) -> usize
    requires { (b : List Record) × (a : List Record) × Holds j.old st b a }
    ensures { ClosesJournal j.old st j.new result }
{
    let f = st.front;
    let b = st.back;
    let n = j.len() - b;
    gap::shift_down(j, f, b, n);
    let used = f + n;
    arranging::arrange(&mut j[0..used]);
    ending::end_lines(j, used);
    used
}
