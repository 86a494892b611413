// Runs the cases of the file sides.txt through the readers of journals.
#![tactic(auto)]

use std::io;
use vectors::For;

fn main(rt: HostRuntime) -> io::Result<()> {
    vectors::run_file(&rt, b"sides.txt", For::Readers)
}
