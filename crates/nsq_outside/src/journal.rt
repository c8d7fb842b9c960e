ghost use Rattle.std.specs.Prelude.{◌≡◌, List, Bool, IsTrue, true, false, IfOk, OnOk, OnErr, Option, Some, IfSome};
ghost use Rattle.nsq_outside.specs.declared.journal.End.{End};
ghost use Rattle.nsq_outside.specs.Journals.{Notes};

use nsq_core::Memory;
use std::alloc::Global;

/// A value of which a copy can be made.
pub trait Twin: Sized {
    /// An equal value, or want of memory.
    fn twin(&self, alloc: Global) -> Result<Self, Memory>
        ensures { IfOk result (λ t. t ≡ self.now) };
}

/// How what was announced to a journal ended.
#[derive(Clone, Copy, PartialEq)]
pub enum End {
    /// It was carried out.
    Done,
    /// A disk fault kept it from being carried out. What the number counts is for the entry's own definition to say.
    Faulted(u64),
    /// It didn't take place, and leaves no trace.
    Skip,
}

/// A list of what happened, each entry with its end.
///
/// An entry is first kept aside, which may want memory, and then noted, which takes none.
pub trait Journal<E> {
    /// Whether values of this type tell their list.
    ghost tells_notes: { Bool };

    /// What was noted, in order.
    ghost notes: { Self → List (E × End) };

    /// The entry that is kept aside, where one is.
    ghost kept: { Self → Option E };

    /// Whether an entry is aside. Each type tells that.
    ghost is_aside: { Self → Bool };

    /// Keeps a copy of the entry aside and makes room for it in the list. After want of memory nothing is aside.
    fn ready(&mut self, entry: &E) -> Result<(), Memory>
        requires { is_aside self.old ≡ false }
        ensures aside { OnOk result (is_aside self.new ≡ true) }
        ensures kept { OnOk result (IsTrue tells_notes → kept self.new ≡ Some entry.now) }
        ensures err { OnErr result (is_aside self.new ≡ false) }
        ensures notes { IsTrue tells_notes → notes self.new ≡ notes self.old };

    /// Appends the entry that is aside with this end, or drops it with `Skip`. It takes no memory.
    fn note(&mut self, end: End)
        requires { is_aside self.old ≡ true }
        ensures aside { is_aside self.new ≡ false }
        ensures notes { IsTrue tells_notes → IfSome (kept self.old) (λ entry. Notes (notes self.old) (notes self.new) entry end) };
}
