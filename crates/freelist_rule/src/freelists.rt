// Steps on freelist words: loads, and the exchanges that try to take the head.
ghost use Rattle.std.specs.Prelude.{◌≡◌, ◌≢◌, ◌↔◌, ◌+◌, ◌-◌, ◌*◌, ◌/◌, ◌%◌, ◌^◌, ◌<◌, ℕ, Some, IfOk, IfErr};
ghost use Rattle.plain_table.specs.declared.events.Act.TheVariants as act;
ghost use Rattle.plain_table.specs.declared.events.Space.TheVariants.{External};
ghost use Rattle.plain_table.specs.Table.{limit_in};
ghost use Rattle.plain_table.specs.Words.{freelist_place, free_word};
ghost use Rattle.entry_base.specs.declared.view.Fact.TheVariants as fact;
ghost use Rattle.entry_base.specs.declared.view.View.{View as Known};
ghost use Rattle.entry_base.specs.Learned.{Loaded};
ghost use Rattle.entry_base.specs.Lists.{Has};
ghost use Rattle.entry_base.specs.Openings.{sizes_in, start_of};
ghost use Rattle.entry_base.specs.Sessions.{view, IsOf};
ghost use Rattle.freelist_rule.specs.Freelists.{FreelistSeen, FreelistForTake, FreelistForBelow, link_facts, Took, TookHead, MissedHead};

use crate::steps::Steps;
use entry_base::{Learning, Learns, Session, Shared, freelist_place};
use plain_table::Space;
use std::marker::Brand;
use std::sync::ledger::Ledger;

fn load_freelist_as<N: Learning>(shared: &Shared, s: &mut Session, space: Space) -> u64
    requires caller { IsOf shared.now s.old }
    requires picked { (found : ℕ) (v w : Known) → N.learns found v w ↔ FreelistSeen v space found w }
    ensures caller { IsOf shared.now s.new }
    ensures learned { FreelistSeen (view s.old) space result (view s.new) }
{
    shared
        .table
        .shared
        .load::<Learns<N>>(&mut s.seat, freelist_place(space))
}

/// Loads the freelist word of a space. This is no event.
pub fn load_freelist(shared: &Shared, s: &mut Session, space: Space) -> u64
    requires caller { IsOf shared.now s.old }
    ensures caller { IsOf shared.now s.new }
    ensures learned { FreelistSeen (view s.old) space result (view s.new) }
{
    load_freelist_as::<Brand>(shared, s, space)
}

fn load_freelist_for_take_as<N: Learning>(shared: &Shared, s: &mut Session, space: Space) -> u64
    requires caller { IsOf shared.now s.old }
    requires picked { (found : ℕ) (v w : Known) → N.learns found v w ↔ FreelistForTake v space found w }
    ensures caller { IsOf shared.now s.new }
    ensures learned { FreelistForTake (view s.old) space result (view s.new) }
{
    shared
        .table
        .shared
        .load::<Learns<N>>(&mut s.seat, freelist_place(space))
}

/// Loads the freelist word of a space for a take: where the list is empty and no segment is left, this is the event of a take that
/// finds the space full.
pub fn load_freelist_for_take(shared: &Shared, s: &mut Session, space: Space) -> u64
    requires caller { IsOf shared.now s.old }
    ensures caller { IsOf shared.now s.new }
    ensures learned { FreelistForTake (view s.old) space result (view s.new) }
{
    load_freelist_for_take_as::<Brand>(shared, s, space)
}

fn load_freelist_for_below_as<N: Learning>(shared: &Shared, s: &mut Session, start: u32) -> u64
    requires caller { IsOf shared.now s.old }
    requires area { start_of (view s.old).opening ≡ Some start }
    requires picked { (found : ℕ) (v w : Known) → N.learns found v w ↔ FreelistForBelow v start found w }
    ensures caller { IsOf shared.now s.new }
    ensures learned { FreelistForBelow (view s.old) start result (view s.new) }
{
    shared
        .table
        .shared
        .load::<Learns<N>>(&mut s.seat, freelist_place(Space::External))
}

/// Loads the external freelist word for a take below the start of the area: where the list is empty or its head is not below the
/// start, this is the event of a take that finds no room.
pub fn load_freelist_for_below(shared: &Shared, s: &mut Session, start: u32) -> u64
    requires caller { IsOf shared.now s.old }
    requires area { start_of (view s.old).opening ≡ Some start }
    ensures caller { IsOf shared.now s.new }
    ensures learned { FreelistForBelow (view s.old) start result (view s.new) }
{
    load_freelist_for_below_as::<Brand>(shared, s, start)
}

fn load_link_as<N: Learning>(shared: &Shared, s: &mut Session, space: Space, word: u64) -> u64
    requires caller { IsOf shared.now s.old }
    requires loaded { (takes : ℕ) × Has (view s.old).facts (fact.Freelist space word takes) }
    requires some { word / 2 ^ 32 ≢ 0 }
    requires inside { (word % 2 ^ 32 ≢ 0) × (word % 2 ^ 32 < limit_in (sizes_in (view s.old).opening) space) }
    requires picked { (found : ℕ) (v w : Known) → N.learns found v w ↔ Loaded v (link_facts space (word % 2 ^ 32) found) w }
    ensures caller { IsOf shared.now s.new }
    ensures learned { Loaded (view s.old) (link_facts space (word % 2 ^ 32) result) (view s.new) }
{
    shared.table.shared.load::<Learns<N>>(
        &mut s.seat,
        shared.entry_place(space, (word % 4294967296) as u32),
    )
}

/// Loads the entry at the head of a freelist word that was loaded and is not empty: its link, as long as the index is free.
pub fn load_link(shared: &Shared, s: &mut Session, space: Space, word: u64) -> u64
    requires caller { IsOf shared.now s.old }
    requires loaded { (takes : ℕ) × Has (view s.old).facts (fact.Freelist space word takes) }
    requires some { word / 2 ^ 32 ≢ 0 }
    requires inside { (word % 2 ^ 32 ≢ 0) × (word % 2 ^ 32 < limit_in (sizes_in (view s.old).opening) space) }
    ensures caller { IsOf shared.now s.new }
    ensures learned { Loaded (view s.old) (link_facts space (word % 2 ^ 32) result) (view s.new) }
{
    load_link_as::<Brand>(shared, s, space, word)
}

fn exchange_head_as<N: Learning>(
    shared: &Shared,
    s: &mut Session,
    space: Space,
    word: u64,
    next: u32,
) -> u64
    requires caller { IsOf shared.now s.old }
    requires loaded { (takes : ℕ) × Has (view s.old).facts (fact.Freelist space word takes) }
    requires some { word / 2 ^ 32 ≢ 0 }
    requires linked { Has (view s.old).facts (fact.Link space (word % 2 ^ 32) (free_word next)) }
    requires picked { (found : ℕ) (v w : Known) → N.learns found v w ↔ Took v space (act.Take space) word found w }
    ensures caller { IsOf shared.now s.new }
    ensures learned { Took (view s.old) space (act.Take space) word result (view s.new) }
{
    shared.table.shared.compare_exchange::<Learns<N>>(
        &mut s.seat,
        freelist_place(space),
        word,
        next as u64 + 4294967296 * (word / 4294967296 - 1),
    )
}

/// Tries to take the head of a freelist word. The answer is the word that was found.
fn exchange_head(shared: &Shared, s: &mut Session, space: Space, word: u64, next: u32) -> u64
    requires caller { IsOf shared.now s.old }
    requires loaded { (takes : ℕ) × Has (view s.old).facts (fact.Freelist space word takes) }
    requires some { word / 2 ^ 32 ≢ 0 }
    requires linked { Has (view s.old).facts (fact.Link space (word % 2 ^ 32) (free_word next)) }
    ensures caller { IsOf shared.now s.new }
    ensures learned { Took (view s.old) space (act.Take space) word result (view s.new) }
{
    exchange_head_as::<Brand>(shared, s, space, word, next)
}

fn exchange_head_below_as<N: Learning>(
    shared: &Shared,
    s: &mut Session,
    start: u32,
    word: u64,
    next: u32,
) -> u64
    requires caller { IsOf shared.now s.old }
    requires loaded { (takes : ℕ) × Has (view s.old).facts (fact.Freelist External word takes) }
    requires some { word / 2 ^ 32 ≢ 0 }
    requires linked { Has (view s.old).facts (fact.Link External (word % 2 ^ 32) (free_word next)) }
    requires area { start_of (view s.old).opening ≡ Some start }
    requires below { word % 2 ^ 32 < start }
    requires picked { (found : ℕ) (v w : Known) → N.learns found v w ↔ Took v External (act.Below start) word found w }
    ensures caller { IsOf shared.now s.new }
    ensures learned { Took (view s.old) External (act.Below start) word result (view s.new) }
{
    shared.table.shared.compare_exchange::<Learns<N>>(
        &mut s.seat,
        freelist_place(Space::External),
        word,
        next as u64 + 4294967296 * (word / 4294967296 - 1),
    )
}

/// Tries to take the head of an external freelist word, which is below the start of the area. The answer is the word that was
/// found.
fn exchange_head_below(shared: &Shared, s: &mut Session, start: u32, word: u64, next: u32) -> u64
    requires caller { IsOf shared.now s.old }
    requires loaded { (takes : ℕ) × Has (view s.old).facts (fact.Freelist External word takes) }
    requires some { word / 2 ^ 32 ≢ 0 }
    requires linked { Has (view s.old).facts (fact.Link External (word % 2 ^ 32) (free_word next)) }
    requires area { start_of (view s.old).opening ≡ Some start }
    requires below { word % 2 ^ 32 < start }
    ensures caller { IsOf shared.now s.new }
    ensures learned { Took (view s.old) External (act.Below start) word result (view s.new) }
{
    exchange_head_below_as::<Brand>(shared, s, start, word, next)
}

/// Tries to take the head of a freelist word that was loaded and is not empty, by the link `next` that was loaded from its entry: one
/// exchange, which counts as a step whether it wins or not. `Ok` has the index that was taken, from 1 on and below the limit of its
/// space. `Err` has the word that was found in place of the loaded one; nothing was taken then.
pub fn take_step<L: Ledger>(
    shared: &Shared,
    s: &mut Session,
    space: Space,
    word: u64,
    next: u32,
    steps: &mut Steps<L>,
) -> Result<u32, u64>
    requires caller { IsOf shared.now s.old }
    requires loaded { (takes : ℕ) × Has (view s.old).facts (fact.Freelist space word takes) }
    requires some { word / 2 ^ 32 ≢ 0 }
    requires linked { Has (view s.old).facts (fact.Link space (word % 2 ^ 32) (free_word next)) }
    ensures caller { IsOf shared.now s.new }
    ensures ticked { steps.new ≡ steps.old + 1 }
    ensures won { IfOk result (λ i. (i ≡ word % 2 ^ 32) × TookHead (view s.old) space (act.Take space) i (view s.new)) }
    ensures lost { IfErr result (λ found. (found ≢ word) × MissedHead (view s.old) space word found (view s.new)) }
{
    let found = exchange_head(shared, s, space, word, next);
    steps.tick();
    if found == word {
        Ok((word % 4294967296) as u32)
    } else {
        Err(found)
    }
}

/// Tries to take the head of an external freelist word that was loaded and is not empty, where it is below the start of the area,
/// by the link `next` that was loaded from its entry: one exchange, which counts as a step whether it wins or not. `Ok` has the
/// index that was taken, from 1 on and below the start. `Err` has the word that was found in place of the loaded one; nothing was
/// taken then.
pub fn below_step<L: Ledger>(
    shared: &Shared,
    s: &mut Session,
    start: u32,
    word: u64,
    next: u32,
    steps: &mut Steps<L>,
) -> Result<u32, u64>
    requires caller { IsOf shared.now s.old }
    requires loaded { (takes : ℕ) × Has (view s.old).facts (fact.Freelist External word takes) }
    requires some { word / 2 ^ 32 ≢ 0 }
    requires linked { Has (view s.old).facts (fact.Link External (word % 2 ^ 32) (free_word next)) }
    requires area { start_of (view s.old).opening ≡ Some start }
    requires below { word % 2 ^ 32 < start }
    ensures caller { IsOf shared.now s.new }
    ensures ticked { steps.new ≡ steps.old + 1 }
    ensures won { IfOk result (λ i. (i ≡ word % 2 ^ 32) × TookHead (view s.old) External (act.Below start) i (view s.new)) }
    ensures lost { IfErr result (λ found. (found ≢ word) × MissedHead (view s.old) External word found (view s.new)) }
{
    let found = exchange_head_below(shared, s, start, word, next);
    steps.tick();
    if found == word {
        Ok((word % 4294967296) as u32)
    } else {
        Err(found)
    }
}
