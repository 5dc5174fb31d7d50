// What is reachable, found in rounds from what globals and variables hold.
ghost use Rattle.std.specs.Prelude.{◌≡◌, ◌<◌, ◌⊎◌, ◌↔◌, ℕ, Some, false, IsTrue, IfOk, OnOk};
ghost use Rattle.plain_table.specs.Reachable.{Reaches};
ghost use Rattle.plain_program.specs.Entries.{at, at_pair, has};
ghost use Rattle.plain_program.specs.Rounds.{IsClosed, Keeps, StaysWithin, unfound};

use crate::OutOfMemory;
use crate::maps::{Pair, add};
use std::alloc::Global;
use std::collections::{BTreeMap, BTreeSet};

/// The objects that are reachable: held by a global or by a variable, or by a reference of a reachable object
/// (`Reaches` of `specs/Reachable.antt`). It refuses only where an allocation fails.
pub fn reached(
    alloc: Global,
    refs: &BTreeMap<Pair, u32>,
    globals: &BTreeMap<u32, u32>,
    variables: &BTreeMap<Pair, u32>,
) -> Result<BTreeSet<u32>, OutOfMemory>
    ensures { IfOk result (λ found. (o : ℕ) → IsTrue (has found.keys o)
        ↔ Reaches (at_pair refs.now.entries) (at globals.now.entries) (at_pair variables.now.entries) o) }
{
    let mut found = BTreeSet::new(alloc);
    add_values(globals, &mut found)?;
    add_pair_values(variables, &mut found)?;
    close(refs, &mut found)?;
    Ok(found)
}

/// Adds each value of a map.
fn add_values(map: &BTreeMap<u32, u32>, set: &mut BTreeSet<u32>) -> Result<(), OutOfMemory>
    ensures { OnOk result ((o : ℕ) → IsTrue (has set.new.keys o)
        ↔ (IsTrue (has set.old.keys o) ⊎ ((i : ℕ) × (at map.now.entries i ≡ Some o)))) }
{
    match set.extend(map.values()) {
        Ok(()) => Ok(()),
        Err(_) => Err(OutOfMemory),
    }
}

/// Adds each value of a map from pairs.
fn add_pair_values(map: &BTreeMap<Pair, u32>, set: &mut BTreeSet<u32>) -> Result<(), OutOfMemory>
    ensures { OnOk result ((o : ℕ) → IsTrue (has set.new.keys o)
        ↔ (IsTrue (has set.old.keys o) ⊎ ((m : ℕ) × (i : ℕ) × (at_pair map.now.entries m i ≡ Some o)))) }
{
    match set.extend(map.values()) {
        Ok(()) => Ok(()),
        Err(_) => Err(OutOfMemory),
    }
}

/// Adds all that references lead to, through any number of them.
fn close(refs: &BTreeMap<Pair, u32>, found: &mut BTreeSet<u32>) -> Result<(), OutOfMemory>
    ensures kept { OnOk result (Keeps found.old.keys found.new.keys) }
    ensures within { OnOk result (StaysWithin refs.now.entries found.old.keys found.new.keys) }
    ensures closed { OnOk result (IsClosed refs.now.entries found.new.keys) }
{
    while one_round(refs, found)? {}
    Ok(())
}

/// Adds the targets of the references of the objects found so far, and says whether one of them was new.
fn one_round(refs: &BTreeMap<Pair, u32>, found: &mut BTreeSet<u32>) -> Result<bool, OutOfMemory>
    ensures kept { OnOk result (Keeps found.old.keys found.new.keys) }
    ensures within { OnOk result (StaysWithin refs.now.entries found.old.keys found.new.keys) }
    ensures closed { IfOk result (λ grew. grew ≡ false → IsClosed refs.now.entries found.new.keys) }
    ensures fewer { IfOk result (λ grew. IsTrue grew
        → unfound refs.now.entries found.new.keys < unfound refs.now.entries found.old.keys) }
{
    let mut grew = false;
    for ((object, _), target) in refs {
        if found.contains(object) && !found.contains(target) {
            add(found, *target)?;
            grew = true;
        }
    }
    Ok(grew)
}
