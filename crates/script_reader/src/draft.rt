// What is read of a script so far. Each function computes the definition of `specs/Grammar.antt` that its contract
// names.
ghost use Rattle.std.specs.Prelude.{◌≡◌, ◌<◌, ◌≤◌, IfOk};
ghost use Rattle.std.specs.List.{All};
ghost use Rattle.script_reader.specs.Grammar.{cycle_after, ended, lists_of, opening, ops_of, with_call, with_line, with_meet};
ghost use Rattle.script_reader.specs.Lines.{most_meets, most_operations};
ghost use Rattle.script_reader.specs.Reading.{IsCall, IsDraft, IsLine};
ghost use Rattle.script_reader.specs.Valid.{IsValidLimits, IsValidScript, IsVersion};

use crate::header::Header;
use crate::lines::{Call, Counts, Line};
use plain_table::{Limits, Meet, Op, Phase, Script};
use sqlite_items::Items;
use std::alloc::{AllocError, Global};

/// The phases that have ended, the operations after them, and the counts.
#[derive(Debug, Drop)]
pub struct Draft {
    pub phases: Items<Phase>,
    pub calls: Items<Call>,
    pub counts: Counts,
}

/// The operations of one mutator (`ops_of`). The only error is want of memory.
fn list(alloc: Global, mutator: u32, calls: &[Call]) -> Result<Items<Op>, AllocError>
    ensures { IfOk result (λ ops. ops ≡ ops_of mutator calls.now) }
{
    let mut ops = Items::new(alloc);
    for call in calls {
        if call.mutator == mutator {
            ops.push(call.op)?;
        }
    }
    Ok(ops)
}

/// One list for each mutator (`lists_of`). The only error is want of memory.
fn lists(alloc: Global, mutators: u32, calls: &[Call]) -> Result<Items<Items<Op>>, AllocError>
    ensures { IfOk result (λ lists. lists ≡ lists_of mutators calls.now) }
{
    let mut lists = Items::new(alloc);
    for mutator in 0..mutators {
        lists.push(list(alloc, mutator, calls)?)?;
    }
    Ok(lists)
}

impl Draft {
    /// Nothing is read after the header (`opening`).
    pub fn new(alloc: Global, header: Header) -> Draft
        requires { IsVersion header.version }
        ensures value { result ≡ opening header }
        ensures valid { IsDraft header.limits result }
    {
        Draft {
            phases: Items::new(alloc),
            calls: Items::new(alloc),
            counts: Counts {
                version: header.version,
                mutators: header.limits.mutators,
                in_cycle: false,
                operations: 0,
                meets: 0,
            },
        }
    }

    /// The draft after an operation (`with_call`). The only error is want of memory.
    fn with_call(self, limits: Limits, call: Call) -> Result<Draft, AllocError>
        requires draft { IsDraft limits self }
        requires call { IsCall self.counts.version limits.mutators call }
        requires few { self.counts.operations < most_operations }
        ensures value { IfOk result (λ draft. draft ≡ with_call self call) }
        ensures valid { IfOk result (IsDraft limits) }
    {
        let Draft {
            phases,
            mut calls,
            counts,
        } = self;
        calls.push(call)?;
        let operations = counts.operations + 1;
        Ok(Draft {
            phases,
            calls,
            counts: Counts {
                operations,
                ..counts
            },
        })
    }

    /// The draft after a meet (`with_meet`). The only error is want of memory.
    fn with_meet(self, alloc: Global, limits: Limits, meet: Meet) -> Result<Draft, AllocError>
        requires draft { IsDraft limits self }
        requires meet { IsLine self.counts (Line.Meeting meet) }
        ensures value { IfOk result (λ draft. draft ≡ with_meet self meet) }
        ensures valid { IfOk result (IsDraft limits) }
    {
        let Draft {
            mut phases,
            calls,
            counts,
        } = self;
        let calls = lists(alloc, counts.mutators, calls.as_slice())?;
        phases.push(Phase { calls, meet })?;
        Ok(Draft {
            phases,
            calls: Items::new(alloc),
            counts: Counts {
                meets: counts.meets + 1,
                in_cycle: is_cycle_after(counts.in_cycle, meet),
                ..counts
            },
        })
    }

    /// The draft after a line that is not the end (`with_line`). The only error is want of memory.
    pub fn with_line(self, alloc: Global, limits: Limits, line: Line) -> Result<Draft, AllocError>
        requires draft { IsDraft limits self }
        requires line { IsLine self.counts line }
        ensures value { IfOk result (λ draft. draft ≡ with_line self line) }
        ensures valid { IfOk result (IsDraft limits) }
    {
        match line {
            Line::Operation(call) => self.with_call(limits, call),
            Line::Meeting(meet) => self.with_meet(alloc, limits, meet),
            Line::Ending => Ok(self),
        }
    }

    /// The script that ends here (`ended`). The only error is want of memory.
    pub fn end(self, alloc: Global, limits: Limits) -> Result<Script, AllocError>
        requires limits { IsValidLimits limits }
        requires draft { IsDraft limits self }
        requires line { IsLine self.counts Line.Ending }
        ensures value { IfOk result (λ script. script ≡ ended limits self) }
        ensures valid { IfOk result IsValidScript }
    {
        let Draft {
            mut phases,
            calls,
            counts,
        } = self;
        let calls = lists(alloc, counts.mutators, calls.as_slice())?;
        phases.push(Phase {
            calls,
            meet: Meet::End,
        })?;
        Ok(Script {
            version: counts.version,
            limits,
            phases,
        })
    }
}

/// Whether a cycle is under way after a meet (`cycle_after`).
fn is_cycle_after(cycle: bool, meet: Meet) -> bool
    ensures { result ≡ cycle_after cycle meet }
{
    match meet {
        Meet::Start { .. } => true,
        Meet::Finish => false,
        Meet::Plain | Meet::End => cycle,
    }
}
