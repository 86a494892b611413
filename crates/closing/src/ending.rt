// The lines of a changed record: during a run a 0 stands between them, in the journal a line feed.
ghost use Rattle.std.specs.Prelude.{◌≡◌, ◌++◌, map, ◌≤◌, length, take, drop};
ghost use Rattle.closing.specs.Closing.{line_end};

// A 0, which stands between the two lines of a changed record, becomes a line feed; every other byte stays.
fn ended(x: u8) -> u8
    ensures { result ≡ line_end x }
{
    if x == 0 { b'\n' } else { x }
}

// Each 0 of the first n bytes becomes a line feed.
pub fn end_lines(j: &mut [u8], n: usize)
    requires { n ≤ length j.old }
    ensures { j.new ≡ map line_end (take n j.old) ++ drop n j.old }
{
    for b in j[..n].iter_mut() {
        // Every byte is stored: without a branch many bytes are done at a time.
        *b = ended(*b);
    }
}
