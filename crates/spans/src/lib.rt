// The commands over several lines of the journal buffer.
#![tactic(auto)]

use editor::State;

pub mod ahead;
pub mod deleting;
pub mod finding;
pub mod striking;

// Where the record of the next live line stands, or the buffer's end where there is none; and the numbers once that line, or EOF, is read.
#[derive(Clone, Copy)]
pub struct Next {
    pub at: usize,
    pub st: State,
}
