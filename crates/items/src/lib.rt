// Decoded items in the work area: how they are written and read.
#![tactic(auto)]

pub mod arguments; // arguments.rt: strings and lines in words
pub mod ends; // ends.rt: what an item is, and where it ends
pub mod heads; // heads.rt: first words
pub mod kinds; // kinds.rt: the table of kinds
pub mod openers; // openers.rt: counts, and what a body does
pub mod puts; // puts.rt: words and closes, written
