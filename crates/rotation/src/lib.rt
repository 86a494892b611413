// Two neighbouring parts of a slice change places, with no memory but the slice and a little of the stack.
#![tactic(auto)]

ghost use Rattle.std.specs.Prelude.{◌≡◌, ◌≤◌, length};
ghost use Rattle.rotation.specs.Rotation.{rotated};

// Puts the first k bytes behind the others.
pub fn rotate(s: &mut [u8], k: usize)
    requires { k ≤ length s.old }
    ensures { s.new ≡ rotated k s.old }
{
    s.rotate_left(k);
}
