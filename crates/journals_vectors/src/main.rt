// Joins the journals of the cases of the file join.txt, and turns those of turn.txt round.
#![tactic(auto)]

use std::io;
use vectors::For;

fn main(rt: HostRuntime) -> io::Result<()> {
    vectors::run_file(&rt, b"join.txt", For::Joining)?;
    vectors::run_file(&rt, b"turn.txt", For::Turning)
}
