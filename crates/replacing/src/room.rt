// What R needs before it deletes: the bytes that this frees.
ghost use Rattle.spans.specs.Spans.{Until};
ghost use Rattle.replacing.specs.Freed.{Frees};

use editor::State;

// How many bytes it frees to delete the lines of the records up to the place `end`.
pub fn freed_to(j: &[u8], st: State, end: usize) -> usize
    requires { Until j.now st end }
    ensures { Frees end j.now st result }
{
    let mut at = st.back;
    let mut n = 0;
    while at < end {
        let next = editor::walk::record_end(j, at);
        n += spans::striking::freed_at(j, at, next);
        at = next;
    }
    n
}
