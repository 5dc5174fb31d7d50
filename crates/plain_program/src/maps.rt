// The maps and sets of a state, each change said at every place.
ghost use Rattle.std.specs.Prelude.{◌≡◌, ℕ, ◌==◌, ◌&&◌, Some, None, true, false, if◌then◌else◌, IfOk, OnOk};
ghost use Rattle.std.specs.List.{list_any};
ghost use Rattle.plain_program.specs.Entries.{at, at_pair, has, has_pair, word_at};

use crate::OutOfMemory;
use std::alloc::Global;
use std::collections::{BTreeMap, BTreeSet};

/// A pair of numbers as a key: a mutator and a variable, or a number and an index.
pub type Pair = (u32, u32);

/// Puts the value at the key, in place of what stands there.
pub fn put<V: Drop>(map: &mut BTreeMap<u32, V>, key: u32, value: V) -> Result<(), OutOfMemory>
    ensures { OnOk result ((i : ℕ) →
        at map.new.entries i ≡ (if key == i then Some value else at map.old.entries i)) }
{
    match map.insert(key, value) {
        Ok(_) => Ok(()),
        Err(_) => Err(OutOfMemory),
    }
}

/// Takes out what stands at the key.
pub fn take_out<V: Drop>(map: &mut BTreeMap<u32, V>, key: u32)
    ensures { (i : ℕ) → at map.new.entries i ≡ (if key == i then None else at map.old.entries i) }
{
    let _ = map.remove(&key);
}

/// Puts the value, or takes out what is there where none is given.
pub fn set_or_clear<V: Drop>(
    map: &mut BTreeMap<u32, V>,
    key: u32,
    value: Option<V>,
) -> Result<(), OutOfMemory>
    ensures { OnOk result ((i : ℕ) → at map.new.entries i ≡ (if key == i then value else at map.old.entries i)) }
{
    match value {
        Some(value) => put(map, key, value),
        None => {
            take_out(map, key);
            Ok(())
        }
    }
}

/// Puts the value at the pair, in place of what stands there.
fn put_pair<V: Drop>(map: &mut BTreeMap<Pair, V>, key: Pair, value: V) -> Result<(), OutOfMemory>
    ensures { OnOk result ((m i : ℕ) →
        at_pair map.new.entries m i ≡ (if (key.0 == m) && (key.1 == i) then Some value else at_pair map.old.entries m i)) }
{
    match map.insert(key, value) {
        Ok(_) => Ok(()),
        Err(_) => Err(OutOfMemory),
    }
}

fn take_out_pair<V: Drop>(map: &mut BTreeMap<Pair, V>, key: Pair)
    ensures { (m i : ℕ) →
        at_pair map.new.entries m i ≡ (if (key.0 == m) && (key.1 == i) then None else at_pair map.old.entries m i) }
{
    let _ = map.remove(&key);
}

/// Puts the value at the pair, or takes out what is there where none is given.
pub fn set_or_clear_pair<V: Drop>(
    map: &mut BTreeMap<Pair, V>,
    key: Pair,
    value: Option<V>,
) -> Result<(), OutOfMemory>
    ensures { OnOk result ((m i : ℕ) →
        at_pair map.new.entries m i ≡ (if (key.0 == m) && (key.1 == i) then value else at_pair map.old.entries m i)) }
{
    match value {
        Some(value) => put_pair(map, key, value),
        None => {
            take_out_pair(map, key);
            Ok(())
        }
    }
}

/// Copies a map from numbers.
pub fn copy<V: Copy>(alloc: Global, map: &BTreeMap<u32, V>) -> Result<BTreeMap<u32, V>, OutOfMemory>
    ensures { IfOk result (λ copied. copied.entries ≡ map.now.entries) }
{
    let mut copied = BTreeMap::new(alloc);
    match copied.extend(map) {
        Ok(()) => Ok(copied),
        Err(_) => Err(OutOfMemory),
    }
}

/// Copies a map from pairs.
pub fn copy_pairs<V: Copy>(
    alloc: Global,
    map: &BTreeMap<Pair, V>,
) -> Result<BTreeMap<Pair, V>, OutOfMemory>
    ensures { IfOk result (λ copied. copied.entries ≡ map.now.entries) }
{
    let mut copied = BTreeMap::new(alloc);
    match copied.extend(map) {
        Ok(()) => Ok(copied),
        Err(_) => Err(OutOfMemory),
    }
}

/// Adds a number.
pub fn add(set: &mut BTreeSet<u32>, key: u32) -> Result<(), OutOfMemory>
    ensures { OnOk result ((i : ℕ) → has set.new.keys i ≡ (if key == i then true else has set.old.keys i)) }
{
    match set.insert(key) {
        Ok(_) => Ok(()),
        Err(_) => Err(OutOfMemory),
    }
}

/// Adds a pair.
pub fn add_pair(set: &mut BTreeSet<Pair>, key: Pair) -> Result<(), OutOfMemory>
    ensures { OnOk result ((m i : ℕ) →
        has_pair set.new.keys m i ≡ (if (key.0 == m) && (key.1 == i) then true else has_pair set.old.keys m i)) }
{
    match set.insert(key) {
        Ok(_) => Ok(()),
        Err(_) => Err(OutOfMemory),
    }
}

/// Takes a pair out.
pub fn remove_pair(set: &mut BTreeSet<Pair>, key: Pair)
    ensures { (m i : ℕ) →
        has_pair set.new.keys m i ≡ (if (key.0 == m) && (key.1 == i) then false else has_pair set.old.keys m i) }
{
    let _ = set.remove(&key);
}

/// Some pair has the number as its second part.
pub fn has_second(set: &BTreeSet<Pair>, second: u32) -> bool
    ensures { result ≡ list_any (λ pair. pair.1 == second) set.now.keys }
{
    set.iter().any(|pair| pair.1 == second)
}

/// The word of a number, which is 0 where the map names none.
pub fn word_at(words: &BTreeMap<u32, u32>, number: u32) -> u32
    ensures { result ≡ word_at words.now.entries number }
{
    match words.get(&number) {
        Some(word) => *word,
        None => 0,
    }
}
