// Steps on objects, variables, references and globals.
ghost use Rattle.std.specs.Prelude.{◌↔◌, ◌+◌, ◌*◌, ◌<◌, ◌==◌, if◌then◌else◌, ℕ, Option};
ghost use Rattle.plain_table.specs.declared.events.Spot.TheVariants.{Global, Ref};
ghost use Rattle.entry_base.specs.declared.view.Fact.TheVariants as fact;
ghost use Rattle.entry_base.specs.declared.view.View.{View as Known};
ghost use Rattle.entry_base.specs.Lists.{Has};
ghost use Rattle.entry_base.specs.Openings.{sizes_in};
ghost use Rattle.entry_base.specs.Owns.{IsHeld};
ghost use Rattle.entry_base.specs.Sessions.{view, IsOf};
ghost use Rattle.object_rule.specs.Objects.{CountSeen, CountForNew, NewObject, Dropped, Got, IsTarget, IsClearTarget, LinkedTo};

use entry_base::{Learning, Learns, Session, Shared};
use std::marker::Brand;

/// The places of the count of objects and of the word that says whether a cycle is under way.
const COUNT: usize = 3;

const PHASE: usize = 4;

fn load_count_as<N: Learning>(shared: &Shared, s: &mut Session) -> u64
    requires caller { IsOf shared.now s.old }
    requires picked { (found : ℕ) (v w : Known) → N.learns found v w ↔ CountSeen v found w }
    ensures caller { IsOf shared.now s.new }
    ensures learned { CountSeen (view s.old) result (view s.new) }
{
    shared.table.shared.load::<Learns<N>>(&mut s.seat, COUNT)
}

/// Loads the count of objects. This is no event.
pub fn load_count(shared: &Shared, s: &mut Session) -> u64
    requires caller { IsOf shared.now s.old }
    ensures caller { IsOf shared.now s.new }
    ensures learned { CountSeen (view s.old) result (view s.new) }
{
    load_count_as::<Brand>(shared, s)
}

fn load_count_for_new_as<N: Learning>(shared: &Shared, s: &mut Session, var: u32) -> u64
    requires caller { IsOf shared.now s.old }
    requires mutator { (view s.old).number < 8 }
    requires variable { var < 16 }
    requires picked { (found : ℕ) (v w : Known) → N.learns found v w ↔ CountForNew v var found w }
    ensures caller { IsOf shared.now s.new }
    ensures learned { CountForNew (view s.old) var result (view s.new) }
{
    shared.table.shared.load::<Learns<N>>(&mut s.seat, COUNT)
}

/// Loads the count of objects for a new object in a variable: where it is the limit, this is the event of a new object that finds
/// the heap full.
pub fn load_count_for_new(shared: &Shared, s: &mut Session, var: u32) -> u64
    requires caller { IsOf shared.now s.old }
    requires mutator { (view s.old).number < 8 }
    requires variable { var < 16 }
    ensures caller { IsOf shared.now s.new }
    ensures learned { CountForNew (view s.old) var result (view s.new) }
{
    load_count_for_new_as::<Brand>(shared, s, var)
}

fn new_step_as<N: Learning>(shared: &Shared, s: &mut Session, var: u32, count: u32) -> u64
    requires caller { IsOf shared.now s.old }
    requires mutator { (view s.old).number < 8 }
    requires variable { var < 16 }
    requires below { count < (sizes_in (view s.old).opening).objects }
    requires loaded { Has (view s.old).facts (fact.Count count) }
    requires picked { (found : ℕ) (v w : Known) → N.learns found v w ↔ NewObject v var count found w }
    ensures caller { IsOf shared.now s.new }
    ensures learned { NewObject (view s.old) var count result (view s.new) }
{
    let found = shared
        .table
        .shared
        .compare_exchange::<Learns<N>>(&mut s.seat, COUNT, count as u64, count as u64 + 1);
    if found == count as u64 {
        s.vars[16 * s.number as usize + var as usize] = count + 1;
    }
    found
}

/// Tries to make the object of a number that was loaded as the count and is below the limit. Where the exchange wins, the variable
/// holds it. The answer is the count that was found.
pub fn new_step(shared: &Shared, s: &mut Session, var: u32, count: u32) -> u64
    requires caller { IsOf shared.now s.old }
    requires mutator { (view s.old).number < 8 }
    requires variable { var < 16 }
    requires below { count < (sizes_in (view s.old).opening).objects }
    requires loaded { Has (view s.old).facts (fact.Count count) }
    ensures caller { IsOf shared.now s.new }
    ensures learned { NewObject (view s.old) var count result (view s.new) }
{
    new_step_as::<Brand>(shared, s, var, count)
}

fn drop_step_as<N: Learning>(shared: &Shared, s: &mut Session, var: u32) -> u64
    requires caller { IsOf shared.now s.old }
    requires mutator { (view s.old).number < 8 }
    requires variable { var < 16 }
    requires picked { (found : ℕ) (v w : Known) → N.learns found v w ↔ Dropped v var w }
    ensures caller { IsOf shared.now s.new }
    ensures learned { Dropped (view s.old) var (view s.new) }
{
    let found = shared.table.shared.load::<Learns<N>>(&mut s.seat, PHASE);
    s.vars[16 * s.number as usize + var as usize] = 0;
    found
}

/// Drops what a variable holds.
pub fn drop_step(shared: &Shared, s: &mut Session, var: u32)
    requires caller { IsOf shared.now s.old }
    requires mutator { (view s.old).number < 8 }
    requires variable { var < 16 }
    ensures caller { IsOf shared.now s.new }
    ensures learned { Dropped (view s.old) var (view s.new) }
{
    drop_step_as::<Brand>(shared, s, var);
}

fn get_reference_as<N: Learning>(
    shared: &Shared,
    s: &mut Session,
    into: u32,
    object: u32,
    k: u32,
) -> u64
    requires caller { IsOf shared.now s.old }
    requires variable { into < 16 }
    requires held { IsHeld (view s.old) object }
    requires few { k < 4 }
    requires picked { (found : ℕ) (v w : Known) → N.learns found v w ↔ Got v into (Ref object k) found w }
    ensures caller { IsOf shared.now s.new }
    ensures learned { Got (view s.old) into (Ref object k) result (view s.new) }
{
    let found = shared
        .table
        .shared
        .load::<Learns<N>>(&mut s.seat, 33 + 8 * object as usize + k as usize);
    s.vars[16 * s.number as usize + into as usize] = found as u32;
    found
}

/// Gets what reference `k` of an object that a variable holds has, into a variable. The answer is 0 where it holds nothing, and else
/// the number of the object plus 1.
pub fn get_reference(shared: &Shared, s: &mut Session, into: u32, object: u32, k: u32) -> u64
    requires caller { IsOf shared.now s.old }
    requires variable { into < 16 }
    requires held { IsHeld (view s.old) object }
    requires few { k < 4 }
    ensures caller { IsOf shared.now s.new }
    ensures learned { Got (view s.old) into (Ref object k) result (view s.new) }
{
    get_reference_as::<Brand>(shared, s, into, object, k)
}

fn get_global_as<N: Learning>(shared: &Shared, s: &mut Session, into: u32, g: u32) -> u64
    requires caller { IsOf shared.now s.old }
    requires mutator { (view s.old).number < 8 }
    requires variable { into < 16 }
    requires few { g < 16 }
    requires picked { (found : ℕ) (v w : Known) → N.learns found v w ↔ Got v into (Global g) found w }
    ensures caller { IsOf shared.now s.new }
    ensures learned { Got (view s.old) into (Global g) result (view s.new) }
{
    let found = shared
        .table
        .shared
        .load::<Learns<N>>(&mut s.seat, 16 + g as usize);
    s.vars[16 * s.number as usize + into as usize] = found as u32;
    found
}

/// Gets what a global below 16 holds, into a variable. The answer is as that of `get_reference`.
pub fn get_global(shared: &Shared, s: &mut Session, into: u32, g: u32) -> u64
    requires caller { IsOf shared.now s.old }
    requires mutator { (view s.old).number < 8 }
    requires variable { into < 16 }
    requires few { g < 16 }
    ensures caller { IsOf shared.now s.new }
    ensures learned { Got (view s.old) into (Global g) result (view s.new) }
{
    get_global_as::<Brand>(shared, s, into, g)
}

fn link_reference_as<N: Learning>(
    shared: &Shared,
    s: &mut Session,
    object: u32,
    k: u32,
    target: Option<u32>,
    word: u32,
) -> u64
    requires caller { IsOf shared.now s.old }
    requires held { IsHeld (view s.old) object }
    requires few { k < 4 }
    requires aims { IsTarget (view s.old) target word }
    requires clear { IsClearTarget (view s.old) word }
    requires picked { (found : ℕ) (v w : Known) → N.learns found v w ↔ LinkedTo v (Ref object k) target w }
    ensures caller { IsOf shared.now s.new }
    ensures learned { LinkedTo (view s.old) (Ref object k) target (view s.new) }
{
    shared.table.shared.swap::<Learns<N>>(
        &mut s.seat,
        33 + 8 * object as usize + k as usize,
        word as u64,
    )
}

/// Links reference `k` of an object that a variable holds to what another variable holds, or to nothing: `word` is the number of
/// that object plus 1, or 0. In a cycle the object is known as shaded.
pub fn link_reference(
    shared: &Shared,
    s: &mut Session,
    object: u32,
    k: u32,
    target: Option<u32>,
    word: u32,
)
    requires caller { IsOf shared.now s.old }
    requires held { IsHeld (view s.old) object }
    requires few { k < 4 }
    requires aims { IsTarget (view s.old) target word }
    requires clear { IsClearTarget (view s.old) word }
    ensures caller { IsOf shared.now s.new }
    ensures learned { LinkedTo (view s.old) (Ref object k) target (view s.new) }
{
    link_reference_as::<Brand>(shared, s, object, k, target, word);
}

fn link_global_as<N: Learning>(
    shared: &Shared,
    s: &mut Session,
    g: u32,
    target: Option<u32>,
    word: u32,
) -> u64
    requires caller { IsOf shared.now s.old }
    requires few { g < 16 }
    requires aims { IsTarget (view s.old) target word }
    requires picked { (found : ℕ) (v w : Known) → N.learns found v w ↔ LinkedTo v (Global g) target w }
    ensures caller { IsOf shared.now s.new }
    ensures learned { LinkedTo (view s.old) (Global g) target (view s.new) }
{
    shared
        .table
        .shared
        .swap::<Learns<N>>(&mut s.seat, 16 + g as usize, word as u64)
}

/// Links a global below 16 to what a variable holds, or to nothing: `word` is as that of `link_reference`.
pub fn link_global(shared: &Shared, s: &mut Session, g: u32, target: Option<u32>, word: u32)
    requires caller { IsOf shared.now s.old }
    requires few { g < 16 }
    requires aims { IsTarget (view s.old) target word }
    ensures caller { IsOf shared.now s.new }
    ensures learned { LinkedTo (view s.old) (Global g) target (view s.new) }
{
    link_global_as::<Brand>(shared, s, g, target, word);
}
