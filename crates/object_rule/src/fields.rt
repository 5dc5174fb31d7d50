// Steps on fields.
ghost use Rattle.std.specs.Prelude.{◌↔◌, ◌+◌, ◌*◌, ◌/◌, ◌%◌, ◌^◌, ◌<◌, ◌==◌, if◌then◌else◌, ℕ, Some};
ghost use Rattle.plain_table.specs.declared.events.Field.TheVariants as field;
ghost use Rattle.plain_table.specs.declared.events.Space.TheVariants.{External, Trusted};
ghost use Rattle.plain_table.specs.Index.{index_of};
ghost use Rattle.plain_table.specs.Places.{object_of};
ghost use Rattle.plain_table.specs.Rows.{IsTag};
ghost use Rattle.plain_table.specs.Table.{limit_in};
ghost use Rattle.entry_base.specs.declared.view.Fact.TheVariants as fact;
ghost use Rattle.entry_base.specs.declared.view.View.{View as Known};
ghost use Rattle.entry_base.specs.Lists.{Has};
ghost use Rattle.entry_base.specs.Openings.{sizes_in};
ghost use Rattle.entry_base.specs.Owns.{claim_of, IsHeld};
ghost use Rattle.entry_base.specs.Sessions.{view, IsOf};
ghost use Rattle.object_rule.specs.Fields.{Named, NamedTrusted, Bound, BoundTrusted, BoundShared, IsMarkedInCycle, Forged};

use entry_base::{Learning, Learns, Session, Shared};
use entry_word::Pending;
use std::marker::Brand;

fn name_external_as<N: Learning>(shared: &Shared, s: &mut Session, number: u32) -> u64
    requires caller { IsOf shared.now s.old }
    requires held { IsHeld (view s.old) (object_of (field.External number)) }
    requires picked { (found : ℕ) (v w : Known) → N.learns found v w ↔ Named v (field.External number) found w }
    ensures caller { IsOf shared.now s.new }
    ensures learned { Named (view s.old) (field.External number) result (view s.new) }
{
    shared.table.shared.load::<Learns<N>>(
        &mut s.seat,
        37 + 8 * (number / 2) as usize + (number % 2) as usize,
    )
}

/// Names an external field, by its number, of an object that a variable holds. The answer is its word.
pub fn name_external(shared: &Shared, s: &mut Session, number: u32) -> u64
    requires caller { IsOf shared.now s.old }
    requires held { IsHeld (view s.old) (object_of (field.External number)) }
    ensures caller { IsOf shared.now s.new }
    ensures learned { Named (view s.old) (field.External number) result (view s.new) }
{
    name_external_as::<Brand>(shared, s, number)
}

fn name_trusted_as<N: Learning>(shared: &Shared, s: &mut Session, object: u32) -> u64
    requires caller { IsOf shared.now s.old }
    requires held { IsHeld (view s.old) object }
    requires picked { (found : ℕ) (v w : Known) → N.learns found v w ↔ NamedTrusted v object found w }
    ensures caller { IsOf shared.now s.new }
    ensures learned { NamedTrusted (view s.old) object result (view s.new) }
{
    shared
        .table
        .shared
        .load::<Learns<N>>(&mut s.seat, 39 + 8 * object as usize)
}

/// Names the trusted field of an object that a variable holds. The answer is its word.
pub fn name_trusted(shared: &Shared, s: &mut Session, object: u32) -> u64
    requires caller { IsOf shared.now s.old }
    requires held { IsHeld (view s.old) object }
    ensures caller { IsOf shared.now s.new }
    ensures learned { NamedTrusted (view s.old) object result (view s.new) }
{
    name_trusted_as::<Brand>(shared, s, object)
}

fn bind_external_as<N: Learning>(shared: &Shared, s: &mut Session, number: u32, word: u32) -> u64
    requires caller { IsOf shared.now s.old }
    requires held { IsHeld (view s.old) (object_of (field.External number)) }
    requires filled { Has (view s.old).fresh (claim_of (view s.old) External (index_of word)) }
    requires picked { (found : ℕ) (v w : Known) → N.learns found v w ↔ Bound v (field.External number) word found w }
    ensures caller { IsOf shared.now s.new }
    ensures learned { Bound (view s.old) (field.External number) word result (view s.new) }
{
    shared.table.shared.compare_exchange::<Learns<N>>(
        &mut s.seat,
        37 + 8 * (number / 2) as usize + (number % 2) as usize,
        0,
        word as u64,
    )
}

/// Binds an external cell that the caller filled to an external field, by its number, of an object that a variable holds, where the
/// field is 0. The answer is the word that was found.
pub fn bind_external(shared: &Shared, s: &mut Session, number: u32, word: u32) -> u64
    requires caller { IsOf shared.now s.old }
    requires held { IsHeld (view s.old) (object_of (field.External number)) }
    requires filled { Has (view s.old).fresh (claim_of (view s.old) External (index_of word)) }
    ensures caller { IsOf shared.now s.new }
    ensures learned { Bound (view s.old) (field.External number) word result (view s.new) }
{
    bind_external_as::<Brand>(shared, s, number, word)
}

fn bind_trusted_as<N: Learning>(
    shared: &Shared,
    s: &mut Session,
    object: u32,
    word: u32,
    tag: u8,
    value: u64,
) -> u64
    requires caller { IsOf shared.now s.old }
    requires held { IsHeld (view s.old) object }
    requires filled { Has (view s.old).fresh (claim_of (view s.old) Trusted (index_of word)) }
    requires cell { Has (view s.old).facts (fact.Trusted (index_of word) tag value) }
    requires inside { index_of word < limit_in (sizes_in (view s.old).opening) Trusted }
    requires tagged { IsTag tag × (value < 2 ^ 48) }
    requires picked { (found : ℕ) (v w : Known) → N.learns found v w ↔ BoundTrusted v object word tag value found w }
    ensures caller { IsOf shared.now s.new }
    ensures learned { BoundTrusted (view s.old) object word tag value result (view s.new) }
{
    let found = shared
        .table
        .shared
        .compare_exchange::<Learns<N>>(&mut s.seat, 39 + 8 * object as usize, 0, word as u64);
    if found == 0 {
        s.pending[s.number as usize] = Some(Pending {
            index: word >> 16,
            tag: tag,
            value: value,
        });
    }
    found
}

/// Binds a trusted cell that the caller filled, with its tag and value, to the trusted field of an object that a variable holds, where
/// the field is 0; the caller then may publish it. The answer is the word that was found.
pub fn bind_trusted(
    shared: &Shared,
    s: &mut Session,
    object: u32,
    word: u32,
    tag: u8,
    value: u64,
) -> u64
    requires caller { IsOf shared.now s.old }
    requires held { IsHeld (view s.old) object }
    requires filled { Has (view s.old).fresh (claim_of (view s.old) Trusted (index_of word)) }
    requires cell { Has (view s.old).facts (fact.Trusted (index_of word) tag value) }
    requires inside { index_of word < limit_in (sizes_in (view s.old).opening) Trusted }
    requires tagged { IsTag tag × (value < 2 ^ 48) }
    ensures caller { IsOf shared.now s.new }
    ensures learned { BoundTrusted (view s.old) object word tag value result (view s.new) }
{
    bind_trusted_as::<Brand>(shared, s, object, word, tag, value)
}

fn bind_shared_as<N: Learning>(shared: &Shared, s: &mut Session, object: u32, word: u32) -> u64
    requires caller { IsOf shared.now s.old }
    requires held { IsHeld (view s.old) object }
    requires settled { Has (view s.old).facts (fact.Settled (index_of word)) }
    requires marked { IsMarkedInCycle (view s.old) word }
    requires picked { (found : ℕ) (v w : Known) → N.learns found v w ↔ BoundShared v object word found w }
    ensures caller { IsOf shared.now s.new }
    ensures learned { BoundShared (view s.old) object word result (view s.new) }
{
    shared
        .table
        .shared
        .compare_exchange::<Learns<N>>(&mut s.seat, 39 + 8 * object as usize, 0, word as u64)
}

/// Binds a trusted cell that nobody is about to bind, and that is marked in a cycle, to the trusted field of an object that a variable
/// holds, where the field is 0. The answer is the word that was found.
pub fn bind_shared(shared: &Shared, s: &mut Session, object: u32, word: u32) -> u64
    requires caller { IsOf shared.now s.old }
    requires held { IsHeld (view s.old) object }
    requires settled { Has (view s.old).facts (fact.Settled (index_of word)) }
    requires marked { IsMarkedInCycle (view s.old) word }
    ensures caller { IsOf shared.now s.new }
    ensures learned { BoundShared (view s.old) object word result (view s.new) }
{
    bind_shared_as::<Brand>(shared, s, object, word)
}

fn forge_step_as<N: Learning>(shared: &Shared, s: &mut Session, number: u32, word: u32) -> u64
    requires caller { IsOf shared.now s.old }
    requires held { IsHeld (view s.old) (object_of (field.External number)) }
    requires picked { (found : ℕ) (v w : Known) → N.learns found v w ↔ Forged v number word w }
    ensures caller { IsOf shared.now s.new }
    ensures learned { Forged (view s.old) number word (view s.new) }
{
    shared.table.shared.swap::<Learns<N>>(
        &mut s.seat,
        37 + 8 * (number / 2) as usize + (number % 2) as usize,
        word as u64,
    )
}

/// Forges any word into an external field, by its number, of an object that a variable holds.
pub fn forge_step(shared: &Shared, s: &mut Session, number: u32, word: u32)
    requires caller { IsOf shared.now s.old }
    requires held { IsHeld (view s.old) (object_of (field.External number)) }
    ensures caller { IsOf shared.now s.new }
    ensures learned { Forged (view s.old) number word (view s.new) }
{
    forge_step_as::<Brand>(shared, s, number, word);
}
