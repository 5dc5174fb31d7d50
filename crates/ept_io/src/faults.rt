// The refusals of a read, a write and an allocation, a count of faults, and a plan of which calls
// fail.
ghost use Rattle.std.specs.Prelude.{◌≡◌, ◌+◌, ◌↔◌, [], Contains, IsErr, IsTrue, is_err, if◌then◌else◌};
ghost use Rattle.ept_io.specs.Faults.{raised};

/// A read or a write failed. It moved no byte.
#[derive(Debug, Clone, Copy, PartialEq, Eq)]
pub struct Failed;

/// There was no memory.
#[derive(Debug, Clone, Copy, PartialEq, Eq)]
pub struct OutOfMemory;

// How many faults there were. The count stays at the last value of a u64.
#[derive(Drop)]
pub(crate) struct FaultCount {
    pub(crate) count: u64,
}

impl FaultCount {
    // No fault so far.
    pub(crate) fn new() -> FaultCount
        ensures { result.count ≡ 0 }
    {
        FaultCount { count: 0 }
    }

    // Counts a fault, which is the answer.
    pub(crate) fn rise(&mut self) -> Failed
        ensures { self.new.count ≡ raised self.old.count }
    {
        self.count = self.count.saturating_add(1);
        Failed
    }
}

// The calls so far, the faults so far, and the numbers of the calls that fail, counted from 1.
#[derive(Drop)]
pub(crate) struct FaultPlan {
    pub(crate) calls: u64,
    pub(crate) faults: FaultCount,
    pub(crate) fail_at: Vec<u32>,
}

impl FaultPlan {
    // The plan before the first call.
    pub(crate) fn new(fail_at: Vec<u32>) -> FaultPlan
        ensures calls { result.calls ≡ 0 }
        ensures faults { result.faults.count ≡ 0 }
        ensures plan { result.fail_at.items ≡ fail_at.items }
    {
        FaultPlan {
            calls: 0,
            faults: FaultCount::new(),
            fail_at,
        }
    }

    // Counts a call, and fails exactly where the call's number is planned to fail.
    pub(crate) fn begin(&mut self) -> Result<(), Failed>
        ensures planned { IsErr result ↔ Contains self.old.fail_at.items (self.old.calls + 1) }
        ensures calls { self.new.calls ≡ raised self.old.calls }
        ensures faults { self.new.faults.count ≡
            (if is_err result then raised self.old.faults.count else self.old.faults.count) }
        ensures plan { self.new.fail_at.items ≡ self.old.fail_at.items }
    {
        let fails = self.fails_next();
        self.calls = self.calls.saturating_add(1);
        if fails {
            Err(self.faults.rise())
        } else {
            Ok(())
        }
    }

    // Whether the next call is planned to fail. A number is compared by the one before it, since
    // the count of calls may stand at its last value.
    fn fails_next(&self) -> bool
        ensures { IsTrue result ↔ Contains self.now.fail_at.items (self.now.calls + 1) }
    {
        let calls = self.calls;
        self.fail_at
            .iter()
            .any(|number| *number > 0 && u64::from(*number - 1) == calls)
    }
}
