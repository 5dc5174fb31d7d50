// The steps at meets: a cycle starts with its evacuation area, and finishes by a sweep.
ghost use Rattle.std.specs.Prelude.{◌≡◌, ◌≤◌, Some, false, IfOk, IfSome, OnOk};
ghost use Rattle.plain_table.specs.declared.events.Space.TheVariants.{External};
ghost use Rattle.plain_table.specs.Area.{count_below, greatest_below};
ghost use Rattle.plain_table.specs.Finish.{area_of, started};
ghost use Rattle.plain_table.specs.Shapes.{event};
ghost use Rattle.plain_program.specs.Kept.{begun, shown};
ghost use Rattle.plain_program.specs.Steps.{Steps};
ghost use Rattle.plain_table.specs.Table.{limit_of};

use crate::cycle::{CycleState, Origin};
use crate::maps::{copy, copy_pairs};
use crate::numbers::MEETING;
use crate::reaches::reached;
use crate::state::State;
use crate::{OutOfMemory, Policy, Reply, Space};
use evac_area::decide;
use std::alloc::Global;
use std::collections::BTreeSet;

impl State {
    ghost use Rattle.plain_table.specs.declared.events.Act.TheVariants as act;

    pub(crate) fn make_start(
        &mut self,
        alloc: Global,
        by: u32,
        policy: Policy,
        said: Reply,
    ) -> Result<bool, OutOfMemory>
        ensures { IfOk result (λ done. Steps done self.old self.new (event by (act.Start policy) said)) }
    {
        if by != MEETING || self.in_cycle() || said != Reply::Ok {
            return Ok(false);
        }
        self.begin(alloc, policy)?;
        Ok(true)
    }

    /// A cycle begins.
    fn begin(&mut self, alloc: Global, policy: Policy) -> Result<(), OutOfMemory>
        ensures table { OnOk result (shown self.new ≡ started (shown self.old) policy) }
        ensures spent { OnOk result (self.new.spent ≡ self.old.spent) }
    {
        let start = self.area_of(policy);
        let origin = self.origin(alloc)?;
        self.clear_fresh(alloc);
        self.open_cycle(alloc, start, origin);
        Ok(())
    }

    /// Nothing is fresh any more.
    fn clear_fresh(&mut self, alloc: Global)
        ensures table { let s = shown self.old in shown self.new ≡ record s { fresh = λ b p i. false } }
        ensures spent { self.new.spent ≡ self.old.spent }
    {
        self.external_fresh = BTreeSet::new(alloc);
        self.trusted_fresh = BTreeSet::new(alloc);
    }

    /// A cycle is under way, with this area over these objects and words.
    fn open_cycle(&mut self, alloc: Global, start: Option<u32>, origin: Origin)
        requires { IfSome start (λ first. first ≤ 65536) }
        ensures table { let s = shown self.old in shown self.new ≡ record s { cycle = Some (begun start origin) } }
        ensures spent { self.new.spent ≡ self.old.spent }
    {
        self.cycle = Some(CycleState::new(alloc, start, origin));
    }

    /// The start of the area that a cycle would have now.
    fn area_of(&self, policy: Policy) -> Option<u32>
        ensures start { result ≡ area_of (shown self.now) policy }
        ensures within { IfSome result (λ first. first ≤ 65536) }
    {
        // Where no index is used, there is one segment, and it has no area.
        let greatest = self.greatest_used()?;
        let seg = self.segment();
        decide(policy, 1 + greatest / seg, self.used_count(), seg)
    }

    /// The entries of a segment. The external ones have at most 65,536 in all.
    fn segment(&self) -> u32
        ensures entries { result ≡ (shown self.now).sizes.seg }
        ensures some { 1 ≤ result }
        ensures all { limit_of (shown self.now) External ≤ 65536 }
    {
        self.limits.seg
    }

    /// The greatest used external index.
    fn greatest_used(&self) -> Option<u32>
        ensures { let s = shown self.now in result ≡ greatest_below (s.used External) (limit_of s External) }
    {
        let mut greatest = None;
        for index in 0..self.limit(Space::External) {
            if self.is_used(Space::External, index) {
                greatest = Some(index);
            }
        }
        greatest
    }

    /// How many external indexes are used.
    fn used_count(&self) -> u32
        ensures { let s = shown self.now in result ≡ count_below (s.used External) (limit_of s External) }
    {
        let mut count = 0;
        for index in 0..self.limit(Space::External) {
            if self.is_used(Space::External, index) {
                count += 1;
            }
        }
        count
    }

    /// A copy of what a cycle remembers of its start.
    fn origin(&self, alloc: Global) -> Result<Origin, OutOfMemory>
        ensures { let k = self.now in IfOk result (λ origin. origin ≡ record {
          references = k.references;
          globals = k.globals;
          variables = k.variables;
          external_words = k.external_words;
          trusted_words = k.trusted_words;
        }) }
    {
        let old = reached(alloc, &self.references, &self.globals, &self.variables)?;
        Ok(Origin {
            references: copy_pairs(alloc, &self.references)?,
            globals: copy(alloc, &self.globals)?,
            variables: copy_pairs(alloc, &self.variables)?,
            external_words: copy(alloc, &self.external_words)?,
            trusted_words: copy(alloc, &self.trusted_words)?,
            old,
        })
    }

    pub(crate) fn make_finish(
        &mut self,
        alloc: Global,
        by: u32,
        said: Reply,
    ) -> Result<bool, OutOfMemory>
        ensures { IfOk result (λ done. Steps done self.old self.new (event by act.Finish said)) }
    {
        if by != MEETING || said != Reply::Ok || !self.may_finish(alloc)? {
            return Ok(false);
        }
        self.finish(alloc)?;
        Ok(true)
    }
}
