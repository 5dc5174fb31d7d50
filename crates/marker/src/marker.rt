// A marker: a stack of objects that are still to be scanned.
ghost use Rattle.std.specs.Prelude.{◌≡◌, ◌≤◌, ℕ, [], length, vec_capacity, IfOk};
ghost use Rattle.entry_base.specs.Lists.{AreIn, count_in};
ghost use Rattle.entry_base.specs.Openings.{sizes_in};
ghost use Rattle.entry_base.specs.Sessions.{view, IsOf};
ghost use Rattle.marker.specs.Runs.{Runs};

use crate::scans::scan_object;
use entry_base::{Session, Shared};
use plain_table::OutOfMemory;
use std::alloc::Global;
use std::marker::Model;

/// A marker. In a clause it is the number of objects that its stack has room for.
#[derive(Drop)]
pub struct Marker {
    stack: Vec<u32>,
}

impl Model for Marker {
    ghost Value = { ℕ };

    ghost view = { λ m. vec_capacity m.stack };

    ghost invariant = { λ m. m.stack.items ≡ [] };
}

impl Marker {
    /// A marker with room for so many objects. It refuses only where the allocation fails.
    pub fn new(alloc: Global, objects: u32) -> Result<Marker, OutOfMemory>
        ensures room { IfOk result (λ m. m ≡ objects) }
    {
        match Vec::with_capacity(alloc, objects as usize) {
            Ok(stack) => Ok(Marker { stack }),
            Err(_) => Err(OutOfMemory),
        }
    }

    /// Scans the objects of `from`, which the session's hands have, each once, and all objects that it shades by them (`Runs` of
    /// `specs/Runs.antt`); the marker has room for all objects of the table. The answer is the number of scans. Hands have objects
    /// only in a cycle. It takes no memory.
    pub fn run(&mut self, shared: &Shared, s: &mut Session, from: &[u32]) -> u32
        requires caller { IsOf shared.now s.old }
        requires hands { AreIn from.now (view s.old).hands }
        requires once { (q : ℕ) → count_in q from.now ≤ 1 }
        requires room { (sizes_in (view s.old).opening).objects ≤ self.old }
        ensures caller { IsOf shared.now s.new }
        ensures runs { Runs (view s.old) from.now (view s.new) result }
        ensures room { self.new ≡ self.old }
    {
        fill(&mut self.stack, from);
        scan_stack(shared, s, &mut self.stack)
    }
}

/// Puts the objects onto the empty stack, which has room for them.
fn fill(stack: &mut Vec<u32>, from: &[u32])
    requires empty { stack.old.items ≡ [] }
    requires room { length from.now ≤ vec_capacity stack.old }
    ensures filled { stack.new.items ≡ from.now }
    ensures room { vec_capacity stack.new ≡ vec_capacity stack.old }
{
    for i in 0..from.len() {
        stack.push_reserved(from[i]);
    }
}

/// Scans the objects of the stack and those that come onto it, until it is empty.
fn scan_stack(shared: &Shared, s: &mut Session, stack: &mut Vec<u32>) -> u32
    requires caller { IsOf shared.now s.old }
    requires hands { AreIn stack.old.items (view s.old).hands }
    requires room { (sizes_in (view s.old).opening).objects ≤ vec_capacity stack.old }
    ensures caller { IsOf shared.now s.new }
    ensures runs { Runs (view s.old) stack.old.items (view s.new) result }
    ensures empty { stack.new.items ≡ [] }
    ensures room { vec_capacity stack.new ≡ vec_capacity stack.old }
{
    let mut scans = 0;
    while let Some(object) = stack.pop() {
        scan_object(shared, s, stack, object);
        scans += 1;
    }
    scans
}
