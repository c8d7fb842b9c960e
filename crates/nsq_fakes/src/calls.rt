ghost use Rattle.std.specs.Prelude.{◌≡◌, ◌≤◌, ◌↔◌, IsTrue};
ghost use Rattle.nsq_outside.specs.Causes.{Rose, CountsFault};

use nsq_outside::Faults;

/// The calls of one method: which of them fail, by their numbers from 0, and how many failed.
#[derive(Drop)]
pub struct Calls {
    fails: Vec<u64>,
    next: u64,
    pub faults: Faults,
}

impl Calls {
    ghost use Rattle.nsq_fakes.specs.MemCalls.{FailsAt, IsFailing, Counts, ForgetsFaults};

    /// No call came yet. Those with these numbers will fail.
    pub(crate) fn new(fails: Vec<u64>) -> Calls
        ensures fails { FailsAt fails.items result }
        ensures no_fault { result.faults.count ≡ 0 }
    {
        Calls {
            fails,
            next: 0,
            faults: Faults::none(),
        }
    }

    /// From now on the calls with these numbers fail, and no other by its number: the next call has the number 0. What
    /// failed so far stays counted.
    pub(crate) fn fail_at(&mut self, fails: Vec<u64>)
        ensures fails { FailsAt fails.items self.new }
        ensures faults { self.new.faults ≡ self.old.faults }
    {
        self.fails = fails;
        self.next = 0;
    }

    /// Counts a call. Answers whether it fails, and then its fault is counted.
    pub(crate) fn next_fails(&mut self) -> bool
        ensures failing { IsTrue result ↔ IsFailing self.old }
        ensures counted { Counts self.old self.new }
        ensures faults { self.old.faults.count ≤ self.new.faults.count }
        ensures cause { IsTrue result → Rose self.old.faults.count self.new.faults.count }
        ensures fault { CountsFault self.old.faults.count self.new.faults.count result }
    {
        let call = self.next;
        self.next = call.saturating_add(1);
        if self.fails.contains(&call) {
            self.faults.add();
            return true;
        }
        false
    }

    /// As if none had failed yet. The numbers of the calls go on.
    pub(crate) fn forget_faults(&mut self)
        ensures { ForgetsFaults self.old self.new }
    {
        self.faults = Faults::none();
    }
}
