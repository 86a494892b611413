// Records arranged where they stand: in each stretch without kept or changed records what left comes before what came (document 02, wish 6). During a run each
// record has one line feed, at its end, and its first byte tells its mark: `+` (43) and `-` (45) are below `<` (60) and `=` (61).
ghost use Rattle.std.specs.Prelude.{◌≤◌, length};
ghost use Rattle.closing.specs.Closing.{HasRecords, ArrangesRow, Arranges};

// The records that begin at `at`, up to the end of the first stretch with a `++`: those from that `++` on are put in order. The place after them is handed back.
// What stands before that `++` is in order already, and so is a stretch where nothing left after it.
fn arrange_row(s: &mut [u8], at: usize) -> usize
    requires { at ≤ length s.old }
    ensures { ArrangesRow s.old at s.new result × (at ≤ result) × (result ≤ length s.old) }
{
    let came = rows::line_with(s, at, b'+');
    let left = rows::lines_below(s, came, 44);
    let end = rows::lines_below(s, left, b'<');
    if left < end {
        gathering::gather(&mut s[came..end]);
    }
    end
}

// All records. The slice is written while its rows are passed, so that no iterator can borrow it.
pub fn arrange(s: &mut [u8])
    requires { HasRecords s.old }
    ensures { Arranges s.old s.new }
{
    let mut at: usize = 0;
    while at < s.len() {
        at = arrange_row(s, at);
    }
}
