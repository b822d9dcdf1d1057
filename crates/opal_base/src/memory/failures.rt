ghost use Rattle.std.specs.Prelude.{◌≡◌, ◌≤◌, ◌↔◌, IsTrue};
ghost use Rattle.std.specs.Bool.{OnTrue, OnFalse};
ghost use Rattle.opal_base.specs.Outside.{Rose};
ghost use Rattle.opal_base.specs.Memory.{FailsNext, AreNew, CountsCall};

/// Which calls fail, the first being 0, and how many did.
#[derive(Drop)]
pub struct Failures {
    failing: Vec<u64>,
    calls: u64,
    pub faults: u64,
}

impl Failures {
    pub fn new(failing: Vec<u64>) -> Failures
        ensures { AreNew result failing.items }
    {
        Failures {
            failing,
            calls: 0,
            faults: 0,
        }
    }

    // Counts a call, and a fault where it is one of those that fail.
    pub fn next_fails(&mut self) -> bool
        ensures told { IsTrue result ↔ FailsNext self.old }
        ensures counted { CountsCall self.old self.new }
        ensures fails { OnTrue result (Rose self.old.faults self.new.faults) }
        ensures passes { OnFalse result (self.new.faults ≡ self.old.faults) }
        ensures later { self.old.faults ≤ self.new.faults }
    {
        let call = self.calls;
        self.calls = call.saturating_add(1);
        let fails = self.failing.contains(&call);
        if fails {
            self.count();
        }
        fails
    }

    // Counts a fault.
    pub fn count(&mut self)
        ensures calls { self.new.calls ≡ self.old.calls }
        ensures failing { self.new.failing.items ≡ self.old.failing.items }
        ensures rose { Rose self.old.faults self.new.faults }
        ensures later { self.old.faults ≤ self.new.faults }
    {
        self.faults = self.faults.saturating_add(1);
    }
}
