ghost use Rattle.std.specs.Prelude.{◌≡◌, List, None, cond, nat_eq, ℕ};
ghost use Rattle.std.specs.Cmp.Lexicographic.{pointwise};
ghost use Rattle.std.specs.HashMap.{get};
ghost use Rattle.std.specs.Str.{bytes_eq};

use due_heap::Key;
use nsq_base::MsgId;
use std::collections::HashMap;

/// A copy is in flight no more: its id reaches none. It takes no memory.
pub fn forget(keys: &mut HashMap<MsgId, Key>, id: &MsgId)
    ensures { (q : List ℕ) → get (pointwise nat_eq) keys.new q ≡ cond (bytes_eq id.now q) None (get (pointwise nat_eq) keys.old q) }
{
    let _ = keys.remove(id);
}
