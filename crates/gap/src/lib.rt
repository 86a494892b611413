// A buffer with a gap of zeros: bytes are moved over the gap, which stays zero.
#![tactic(auto)]

ghost use Rattle.std.specs.Prelude.{◌≡◌, ◌+◌, ◌-◌, ◌≤◌, ◌<◌, length, drop};
ghost use Rattle.text.specs.Feeds.{line_length, line_start};
ghost use Rattle.gap.specs.Gap.{ZeroGap, moved_down, moved_up, cleared};

// The n bytes from `from` on become 0.
pub fn clear(j: &mut [u8], from: usize, n: usize)
    requires { from + n ≤ length j.old }
    ensures { j.new ≡ cleared from n j.old }
{
    j[from..from + n].fill(0);
}

// Moves the n bytes from b down to f. The bytes from f to b are 0 before.
pub fn shift_down(j: &mut [u8], f: usize, b: usize, n: usize)
    requires { (f ≤ b) × (b + n ≤ length j.old) × ZeroGap f b j.old }
    ensures { j.new ≡ moved_down f b n j.old }
{
    text::copies::copy_down(j, f, b, n);
    // Where they stood, those that are not written over are cleared: no more than the gap is wide.
    let k = n.min(b - f);
    clear(j, b + n - k, k);
}

// Moves the bytes from lo up to f so that they end at b. The bytes from f to b are 0 before.
pub fn shift_up(j: &mut [u8], lo: usize, f: usize, b: usize)
    requires { (lo ≤ f) × (f ≤ b) × (b ≤ length j.old) × ZeroGap f b j.old }
    ensures { j.new ≡ moved_up lo f b j.old }
{
    let n = f - lo;
    text::copies::copy_up(j, b - n, lo, n);
    let k = n.min(b - f);
    clear(j, lo, k);
}

// Moves the bytes from b up to the next line feed, with it, down to f, and hands their number back. The bytes from f to b are 0 before.
pub fn shift_line_down(j: &mut [u8], f: usize, b: usize) -> usize
    requires { (f ≤ b) × (b ≤ length j.old) × ZeroGap f b j.old }
    ensures { (j.new ≡ moved_down f b result j.old) × (result ≡ line_length (drop b j.old)) }
{
    let n = text::feeds::line_after(j, b) - b;
    shift_down(j, f, b, n);
    n
}

// Moves the line that ends at f, with its line feed, up so that it ends at b, and hands its start back. The bytes from f to b are 0 before.
pub fn shift_line_up(j: &mut [u8], f: usize, b: usize) -> usize
    requires { (0 < f) × (f ≤ b) × (b ≤ length j.old) × ZeroGap f b j.old }
    ensures { (j.new ≡ moved_up result f b j.old) × (result ≡ line_start j.old (f - 1)) }
{
    let lo = text::feeds::line_start(j, f - 1);
    shift_up(j, lo, f, b);
    lo
}
