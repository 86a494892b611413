// Whether any mark is set.
ghost use Rattle.std.specs.Prelude.{◌≡◌, ◌≤◌, length, take};
ghost use Rattle.marks.specs.Idling.{are_idle};

use super::NEVER;

// None of the first n marks is set.
pub fn is_idle(marks: &[u16], n: usize) -> bool
    requires { n ≤ length marks.now }
    ensures { result ≡ are_idle (take n marks.now) }
{
    for mark in &marks[..n] {
        if *mark != NEVER {
            return false;
        }
    }
    true
}
