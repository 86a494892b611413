// Lines written as records: a line that stands in a journal, with its line feed, after a mark of two bytes.
ghost use Rattle.std.specs.Prelude.{◌++◌, ◌+◌, ◌≤◌, length};
ghost use Rattle.journal.specs.Views.{Puts};

// Writes bytes, such as a line with its line feed, at `out`, and answers where the next go.
pub fn put_line(line: &[u8], dest: &mut [u8], out: usize) -> usize
    requires { out + length line.now ≤ length dest.old }
    ensures { Puts line.now dest.old out dest.new result }
{
    text::copy(line, dest, out);
    out + line.len()
}

// The same after a mark.
pub fn put_marked(mark: [u8; 2], line: &[u8], dest: &mut [u8], out: usize) -> usize
    requires { out + 2 + length line.now ≤ length dest.old }
    ensures { Puts (mark ++ line.now) dest.old out dest.new result }
{
    let next = put_line(&mark, dest, out);
    put_line(line, dest, next)
}
