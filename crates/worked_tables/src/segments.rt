// Tables whose first external segment is spent, and whose second one is linked and committed.
ghost use Rattle.std.specs.Prelude.{◌≡◌, ◌+◌, ◌<◌, ℕ, IfSome};
ghost use Rattle.plain_table.specs.declared.events.Space.TheVariants.{External};
ghost use Rattle.entry_base.specs.declared.view.Fact.TheVariants as fact;
ghost use Rattle.entry_base.specs.Callers.{SameCaller};
ghost use Rattle.entry_base.specs.Lists.{Has};
ghost use Rattle.entry_base.specs.Sessions.{view, IsOf};

use crate::fillings::{take_head, take_two};
use entry_base::{Session, Shared};
use entry_word::Shape;
use freelist_rule::{Steps, commit_step, link_entry};
use plain_table::Space;
use std::sync::ledger::Ledger;

/// Two external segments of four entries and a trusted one, and four objects: the external entries stand from word 64 on, the
/// trusted ones from word 72 on.
pub const SHAPE: Shape = Shape {
    seg: 4,
    ext: 2,
    tru: 1,
    objects: 4,
};

/// Takes the three indexes of the first external segment of four entries. The answer is the last one; `None` where another word or
/// link was found than those of a fresh table.
pub fn take_three<L: Ledger>(shared: &Shared, s: &mut Session, steps: &mut Steps<L>) -> Option<u32>
    requires caller { IsOf shared.now s.old }
    ensures caller { IsOf shared.now s.new }
    ensures same { SameCaller (view s.old) (view s.new) }
    ensures ticked { IfSome result (λ index. steps.new ≡ steps.old + 3) }
{
    take_head(shared, s, Space::External, 0x3_0000_0001, 2, steps)?;
    take_two(shared, s, Space::External, steps)
}

/// Links two entries from an index on, each of which can be used after it. The table has two external segments of four entries.
pub fn link_two(shared: &Shared, s: &mut Session, index: u32)
    requires caller { IsOf shared.now s.old }
    requires few { index < 7 }
    requires shape { (view s.old).opening.shape.seg ≡ 4 }
    requires segments { (view s.old).opening.shape.ext ≡ 2 }
    ensures caller { IsOf shared.now s.new }
    ensures same { SameCaller (view s.old) (view s.new) }
    ensures first { Has (view s.new).facts (fact.Linked External index) }
    ensures second { Has (view s.new).facts (fact.Linked External (index + 1)) }
{
    link_entry(shared, s, Space::External, index);
    link_entry(shared, s, Space::External, index + 1);
}

/// Commits the segment from index 4 on, all of whose entries were linked, by the empty freelist word that was loaded. The answer is
/// the word that was found.
pub fn commit_linked(shared: &Shared, s: &mut Session) -> u64
    requires caller { IsOf shared.now s.old }
    requires loaded { (takes : ℕ) × Has (view s.old).facts (fact.Freelist External 4 takes) }
    requires shape { (view s.old).opening.shape.seg ≡ 4 }
    requires segments { (view s.old).opening.shape.ext ≡ 2 }
    requires fourth { Has (view s.old).facts (fact.Linked External 4) }
    requires fifth { Has (view s.old).facts (fact.Linked External 5) }
    requires sixth { Has (view s.old).facts (fact.Linked External 6) }
    requires seventh { Has (view s.old).facts (fact.Linked External 7) }
    ensures caller { IsOf shared.now s.new }
    ensures same { SameCaller (view s.old) (view s.new) }
{
    commit_step(shared, s, Space::External, 4)
}
