// A list laid at the front of what is lent, and the rest as it was. Uses stage for one definition.
#![tactic(auto)]

ghost use Rattle.std.specs.Prelude.{◌≡◌, ◌≤◌, length};
ghost use Rattle.stage.specs.Stage.{over};

pub fn lay<T: Copy>(list: &[T], part: &mut [T])
    requires { length list.now ≤ length part.old }
    ensures { part.new ≡ over list.now part.old }
{
    // By a loop: std's copy would call memmove, which the header does not name.
    for (i, item) in list.iter().enumerate() {
        part[i] = *item;
    }
}
