// Runs the cases of the files run.txt, wish-01.txt, wish-02.txt, wish-04.txt, wish-06.txt, wish-08.txt and wish-09.txt through the editor.
#![tactic(auto)]

use std::io;
use vectors::For;

fn main(rt: HostRuntime) -> io::Result<()> {
    let names = [
        "run.txt",
        "wish-01.txt",
        "wish-02.txt",
        "wish-04.txt",
        "wish-06.txt",
        "wish-08.txt",
        "wish-09.txt",
    ];
    for name in names {
        vectors::run_file(&rt, name.as_bytes(), For::Editor)?;
    }
    Ok(())
}
