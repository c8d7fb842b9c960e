ghost use Rattle.std.specs.Prelude.{◌≡◌, ◌++◌, ◌+◌, ◌≤◌, length, vec_capacity, vec_len};

use nsq_base::Chan;

/// A message is owed to each of these channels, behind those that it is owed to already. It takes no memory, and requires room for them.
pub fn owe_to_all(owed: &mut Vec<Chan>, channels: &[Chan])
    requires { vec_len owed.old + length channels.now ≤ vec_capacity owed.old }
    ensures { owed.new.items ≡ owed.old.items ++ channels.now }
{
    let Ok(()) = owed.extend_from_slice(channels) else {
        unreachable!()
    };
}
