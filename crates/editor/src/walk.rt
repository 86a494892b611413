// Walking the records of the journal buffer: over the gap and back, and to the next live line. A walk takes the buffer and its numbers and no `Editor`:
// halfway the record at the gap may be a deleted one, so that they show no text.
ghost use Rattle.std.specs.Prelude.{◌≡◌, List, [], ◌∷◌, ◌++◌, ℕ, ◌+◌, ◌-◌, ◌≤◌, ◌<◌, length, drop};
ghost use Rattle.definitions.specs.Journal.{Record};
ghost use Rattle.text.specs.Feeds.{line_length};
ghost use Rattle.editor.specs.Records.{enc, Good, old_bytes, zero_place};
ghost use Rattle.editor.specs.Shows.{Holds, TextAt, PassesOver, PassesBack, Lands, Walks, back_to, on_to, to_source, Away, raised, line_at};

use crate::State;

// The place after the next line feed from `at` on, or the end.
pub fn record_end(j: &[u8], at: usize) -> usize
    requires { at ≤ length j.now }
    ensures { result ≡ at + line_length (drop at j.now) }
{
    text::feeds::line_after(j, at)
}

// The place of the next 0 from `at` on, or the end.
pub fn zero_after(j: &[u8], at: usize) -> usize
    requires { at ≤ length j.now }
    ensures { result ≡ at + zero_place (drop at j.now) }
{
    text::feeds::place_after(j, at, 0)
}

// Where the text of a line stands.
#[derive(Clone, Copy)]
pub struct Text {
    pub from: usize,
    pub n: usize,
}

// The text of the line whose record starts at `at`: the new one of a changed line.
pub fn text_at(j: &[u8], at: usize) -> Text
    requires { (r : Record) × (z : List ℕ) × Good r × (drop at j.now ≡ enc r ++ z) }
    ensures { (r : Record) (z : List ℕ) → Good r → drop at j.now ≡ enc r ++ z → TextAt j.now at result.from result.n r }
{
    let end = record_end(j, at) - 1;
    if j[at] == 60 {
        let from = zero_after(j, at) + 1;
        return Text {
            from,
            n: end - from,
        };
    }
    let from = at + 2;
    Text {
        from,
        n: end - from,
    }
}

// The bytes that the record of n bytes from `at` on has in the table: its source line with the line feed, none where it is inserted.
fn source_bytes(j: &[u8], at: usize, n: usize) -> usize
    requires { (r : Record) × (z : List ℕ) × Good r × (drop at j.now ≡ enc r ++ z) × (n ≡ length (enc r)) }
    ensures { (r : Record) (z : List ℕ) → Good r → drop at j.now ≡ enc r ++ z → n ≡ length (enc r) → result ≡ old_bytes (r ∷ []) }
{
    let m = j[at];
    if m == 43 {
        return 0;
    }
    if m == 60 {
        let z = zero_after(j, at);
        return z - at - 1;
    }
    n - 2
}

// Over the current record: it then stands before the gap.
pub fn pass_record(j: &mut [u8], st: State) -> State
    requires { (b : List Record) × (x : Record) × (a : List Record) × Holds j.old st b (x ∷ a) }
    ensures { PassesOver j.old st j.new result }
{
    let f = st.front;
    let b = st.back;
    let n = gap::shift_line_down(j, f, b);
    let old = source_bytes(j, f, n);
    let mut s = st;
    s.front = f + n;
    s.back = b + n;
    s.source = st.source + old;
    if 0 < old {
        s.past = st.past + 1;
    }
    s
}

// Back over the nearest record before the gap: it is then the current one.
pub fn unpass_record(j: &mut [u8], st: State) -> State
    requires { (x : Record) × (b : List Record) × (a : List Record) × Holds j.old st (x ∷ b) a }
    ensures { PassesBack j.old st j.new result }
{
    let f = st.front;
    let b = st.back;
    let lo = gap::shift_line_up(j, f, b);
    let n = f - lo;
    let at = b - n;
    let old = source_bytes(j, at, n);
    let mut s = st;
    s.front = lo;
    s.back = at;
    s.source = st.source - old;
    if 0 < old {
        s.past = st.past - 1;
    }
    s
}

// Over the deleted records that stand first. A line that becomes current gets p = 0.
pub fn land_live(j: &mut [u8], st: State) -> State
    requires { (b : List Record) × (a : List Record) × Holds j.old st b a }
    ensures { Lands j.old st j.new result }
{
    let mut s = st;
    loop {
        let at = s.back;
        if at >= j.len() {
            break;
        }
        if j[at] != 45 {
            break;
        }
        s = pass_record(j, s);
    }
    s.p = 0;
    s
}

// Back until at most k source lines stand before the gap.
fn back_to(j: &mut [u8], st: State, k: usize) -> State
    requires { (b : List Record) × (a : List Record) × Holds j.old st b a }
    ensures { Walks (back_to k) j.old st j.new result }
{
    let mut s = st;
    while k < s.past {
        s = unpass_record(j, s);
    }
    s
}

// On until the record of the source line after k others is current, or EOF.
fn on_to(j: &mut [u8], st: State, k: usize) -> State
    requires { (b : List Record) × (a : List Record) × Holds j.old st b a }
    ensures { Walks (on_to k) j.old st j.new result }
{
    let mut s = st;
    loop {
        let at = s.back;
        if at >= j.len() {
            return s;
        }
        if s.past >= k {
            if j[at] != 43 {
                return s;
            }
        }
        s = pass_record(j, s);
    }
}

// Back or on to the record of the source line after k others, or EOF.
pub fn to_source(j: &mut [u8], st: State, k: usize) -> State
    requires { (b : List Record) × (a : List Record) × Holds j.old st b a }
    ensures { Walks (to_source k) j.old st j.new result }
{
    let near = back_to(j, st, k);
    on_to(j, near, k)
}

// The gap goes back to where it stood with the numbers `there`: the buffer is then as it was.
pub fn gap_to(j: &mut [u8], st: State, there: State)
    requires { (i : List ℕ) × Away i there j.old st }
    ensures { (i : List ℕ) → Away i there j.old st → j.new ≡ i }
{
    let f = st.front;
    let b = st.back;
    let to = there.front;
    if to <= f {
        gap::shift_up(j, to, f, b);
        return;
    }
    let n = to - f;
    gap::shift_down(j, f, b, n);
}

// Source line a is read, and the lines before it; EOF where there is no such line: the part `read_up_to (line a)` of a step, and `read_up_to eof` for lines + 1
// (laws reads-line, reads-eof). No other function sets the furthest line read.
pub fn read_to(st: State, a: usize) -> State
    requires { st.lines ≤ 65535 }
    ensures { result ≡ raised st a }
{
    let mut s = st;
    let mut to = st.lines + 1;
    if a < to {
        to = a;
    }
    if st.furthest < to {
        s.furthest = to;
    }
    s
}

// The line that is current now, or EOF, is read.
pub fn read_current(j: &[u8], st: State) -> State
    requires { (b : List Record) × (a : List Record) × Holds j.now st b a }
    ensures { (b : List Record) (a : List Record) → Holds j.now st b a → result ≡ raised st (line_at b a) }
{
    let at = st.back;
    if at < j.len() {
        if j[at] == 43 {
            // An inserted line has no number: the line before it is read already, or is read now.
            return read_to(st, st.past);
        }
    }
    read_to(st, st.past + 1)
}
