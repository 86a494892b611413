// Words written from k on.
ghost use Rattle.std.specs.Prelude.{◌≡◌, ◌+◌, ◌≤◌, ◌<◌, length, set};
ghost use Rattle.items.specs.Words.{Closed};

use crate::kinds::CLOSE;

// One word, two, or four.
pub fn put_one(w: &mut [u32], k: usize, a: u32)
    requires { k < length w.old }
    ensures { w.new ≡ set w.old k a }
{
    w[k] = a;
}

pub fn put_two(w: &mut [u32], k: usize, a: u32, b: u32)
    requires { k + 1 < length w.old }
    ensures { w.new ≡ set (set w.old k a) (k + 1) b }
{
    w[k] = a;
    w[k + 1] = b;
}

pub fn put_four(w: &mut [u32], k: usize, a: u32, b: u32, c: u32, d: u32)
    requires { k + 3 < length w.old }
    ensures { w.new ≡ set (set (set (set w.old k a) (k + 1) b) (k + 2) c) (k + 3) d }
{
    w[k] = a;
    w[k + 1] = b;
    w[k + 2] = c;
    w[k + 3] = d;
}

// n closes.
pub fn put_closes(w: &mut [u32], k: usize, n: usize)
    requires { k + n ≤ length w.old }
    ensures { Closed k n w.old w.new }
{
    w[k..k + n].fill(CLOSE);
}
