// The text of the joined line.
ghost use Rattle.std.specs.Prelude.{◌≡◌, ◌++◌, ◌+◌, ◌≤◌, ◌<◌, length, take, drop};
ghost use Rattle.editor.specs.Records.{LineIn};
ghost use Rattle.editor.specs.Current.{ShownOf};
ghost use Rattle.changes.specs.Current.{written};
ghost use Rattle.joins.specs.Joining.{HasRecord, JoinsText};

use editor::Editor;

// The bytes of a, then n of s, then m of j.
fn put_parts(
    line: &mut [u8],
    a: &[u8],
    s: &[u8],
    from: usize,
    n: usize,
    j: &[u8],
    at: usize,
    m: usize,
)
    requires { (length a.now + n + m ≤ length line.old) × (from + n ≤ length s.now) × (at + m ≤ length j.now) }
    ensures { line.new ≡ written line.old (a.now ++ (take n (drop from s.now) ++ take m (drop at j.now))) }
{
    let k = a.len();
    text::copies::copy_in(line, 0, a, 0, k);
    text::copies::copy_in(line, k, s, from, n);
    text::copies::copy_in(line, k + n, j, at, m);
}

// The current line, the n bytes of s from `from` on, and the line whose record stands at `at`: their length; and their bytes, where a line can be so long.
pub fn join_text(
    line: &mut [u8],
    table: &[u8],
    ed: &Editor<'_>,
    at: usize,
    s: &[u8],
    from: usize,
    n: usize,
) -> usize
    requires { ShownOf table.now ed.now.journal.now ed.now.st × (ed.now.st.back < length ed.now.journal.now) × HasRecord ed.now.journal.now at × LineIn s.now from n × (255 ≤ length line.old) }
    ensures { JoinsText table.now ed.now.journal.now ed.now.st at (take n (drop from s.now)) line.old line.new result }
{
    let text = ed.current_line(table);
    let next = editor::walk::text_at(ed.journal, at);
    let len = text.len() + n + next.n;
    if 255 < len {
        return len;
    }
    put_parts(line, text, s, from, n, ed.journal, next.from, next.n);
    len
}
