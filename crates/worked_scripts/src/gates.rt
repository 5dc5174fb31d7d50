// Gates at which threads wait for one another.
ghost use Rattle.std.specs.Prelude.{◌<◌};

use phase_calls::Gate;
use std::process::Abort;
use std::sync::atomic::{AtomicBool, Ordering};
use std::thread::yield_now;

/// How often a thread looks for the flag of another one at most.
const TURNS: u32 = 50_000_000;

/// How often a slow thread yields before a call.
const PAUSE: u32 = 1_000;

/// A passing of the gate: the number of a mutator or of a marker, and the number of the call in the phase.
#[derive(Clone, Copy, PartialEq, Eq)]
pub(crate) struct Place {
    pub number: u32,
    pub call: u32,
}

/// Turns until the flag is set. False where it was not within the turns.
fn turn_until(flag: &AtomicBool) -> bool {
    for _ in 0..TURNS {
        if flag.load(Ordering::SeqCst) {
            return true;
        }
        yield_now();
    }
    false
}

/// A gate at which two threads meet: at each of two places it sets the flag of that place, and turns until the other one's is set.
#[derive(Drop)]
pub(crate) struct Meeting {
    places: [Place; 2],
    passed: [AtomicBool; 2],
    met: [AtomicBool; 2],
}

impl Meeting {
    pub(crate) fn at(places: [Place; 2]) -> Meeting {
        Meeting {
            places,
            passed: [AtomicBool::new(false), AtomicBool::new(false)],
            met: [AtomicBool::new(false), AtomicBool::new(false)],
        }
    }

    /// Passes one of the two places, and turns until the other one is passed.
    fn meet(&self, own: usize)
        requires { own < 2 }
    {
        self.passed[own].store(true, Ordering::SeqCst);
        if turn_until(&self.passed[1 - own]) {
            self.met[own].store(true, Ordering::SeqCst);
        }
    }

    /// Each of the two threads found the other one's flag.
    pub(crate) fn assert_held(&self, rt: &impl Abort) {
        assert!(rt; self.met[0].load(Ordering::SeqCst));
        assert!(rt; self.met[1].load(Ordering::SeqCst));
    }
}

impl Gate for Meeting {
    fn pass(&self, number: u32, call: u32) {
        let place = Place { number, call };
        for own in 0..2 {
            if self.places[own] == place {
                self.meet(own);
            }
        }
    }
}

/// A gate that puts places in order: at each of the later ones it turns until the earlier one is passed.
#[derive(Drop)]
pub(crate) struct InOrder {
    earlier: Place,
    later: [Place; 2],
    passed: AtomicBool,
    came: [AtomicBool; 2],
}

impl InOrder {
    pub(crate) fn of(earlier: Place, later: [Place; 2]) -> InOrder {
        InOrder {
            earlier,
            later,
            passed: AtomicBool::new(false),
            came: [AtomicBool::new(false), AtomicBool::new(false)],
        }
    }

    /// Passes one of the later places after the earlier one.
    fn follow(&self, own: usize)
        requires { own < 2 }
    {
        if turn_until(&self.passed) {
            self.came[own].store(true, Ordering::SeqCst);
        }
    }

    /// Each later place was passed after the earlier one.
    pub(crate) fn assert_held(&self, rt: &impl Abort) {
        assert!(rt; self.came[0].load(Ordering::SeqCst));
        assert!(rt; self.came[1].load(Ordering::SeqCst));
    }
}

impl Gate for InOrder {
    fn pass(&self, number: u32, call: u32) {
        let place = Place { number, call };
        if self.earlier == place {
            self.passed.store(true, Ordering::SeqCst);
        }
        for own in 0..2 {
            if self.later[own] == place {
                self.follow(own);
            }
        }
    }
}

/// A gate that holds one mutator or marker up before each call, so that the others mostly come first.
#[derive(Drop)]
pub(crate) struct Slow {
    pub number: u32,
}

impl Gate for Slow {
    fn pass(&self, number: u32, _call: u32) {
        if number == self.number {
            for _ in 0..PAUSE {
                yield_now();
            }
        }
    }
}
