// The lexer: the small parts of a script. A reader takes the script and a place, a byte offset from 0, and answers what
// stands there and the place after it.
#![tactic(auto)]

pub mod bytes; // bytes.rt: kinds of bytes, the byte at a place
pub mod lines; // lines.rt: the lines that I and R insert
pub mod names; // names.rt: command names, packed in a number
pub mod numbers; // numbers.rt: numbers and counts
pub mod shapes; // shapes.rt: the command that a name selects
pub mod spaces; // spaces.rt: spaces, comments and line ends
pub mod strings; // strings.rt: strings up to their delimiter
pub mod targets; // targets.rt: the line numbers of M, D, I and R
pub mod words; // words.rt: THEN and ELSE
