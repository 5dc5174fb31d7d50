// The phases of the generated script, appended piece by piece. Each function computes the definition of
// `specs/Generated.antt` that its contract names; want of memory is the only error.
ghost use Rattle.std.specs.Prelude.{◌≡◌, ◌+◌, ◌++◌, ◌∷◌, [], ◌^◌, ◌<◌, ◌==◌, ◌%◌, if◌then◌else◌, IfOk, OnOk, length, map, slice_index};
ghost use Rattle.std.specs.List.{flat_map};
ghost use Rattle.script_generator.specs.Generated.{emptying_phase, empty_phase, first_numbers, generated, holding_lines, limits, lines_at, object_lines, old_tags, phase_of, phases_of, round_lines, round_phases};
ghost use Rattle.script_reader.specs.Valid.{IsValidScript, operations_of};

use plain_table::{Limits, Meet, Op, Phase, Policy, Script};
use script_reader::OutOfMemory;
use sqlite_items::Items;
use std::alloc::{AllocError, Global};
use tag_set::{Tag, all};

const LIMITS: Limits = Limits {
    seg: 16,
    ext: 4096,
    tru: 1,
    objects: 10_000,
    mutators: 8,
    markers: 4,
};

const START: Meet = Meet::Start {
    policy: Policy::Auto,
};

/// The rounds, the objects that a mutator makes in each, and the number of those among which one is held.
const ROUNDS: u32 = 6;

const OBJECTS: u32 = 200;

const HELD: u32 = 8;

/// The values of cells are below this.
const VALUES: u64 = 1 << 48;

/// The variables a and b.
const OBJECT: u32 = 0;

const NEXT: u32 = 1;

/// The script of a seed (`generated` in `specs/Generated.antt`), a valid one of version 1 with 22,816 operations and 16
/// meets. Want of memory is the only error.
pub fn generate(alloc: Global, seed: u64) -> Result<Script, OutOfMemory>
    ensures value { IfOk result (λ script. script ≡ generated seed) }
    ensures valid { IfOk result IsValidScript }
    ensures operations { IfOk result (λ script. operations_of script.phases ≡ 22816) }
    // 16 meets and the end
    ensures meets { IfOk result (λ script. length script.phases ≡ 17) }
{
    Ok(Script {
        version: 1,
        limits: LIMITS,
        phases: all_phases(alloc, seed)?,
    })
}

// The first start, the rounds, and the two cycles that find the variables empty.
fn all_phases(alloc: Global, seed: u64) -> Result<Items<Phase>, AllocError>
    ensures { IfOk result (λ phases. phases ≡ phases_of seed) }
{
    let mut phases = Items::new(alloc);
    phases.push(empty_phase(alloc, START)?)?;
    push_rounds(alloc, &mut phases, seed)?;
    phases.push(emptying_phase(alloc)?)?;
    phases.push(empty_phase(alloc, Meet::Finish)?)?;
    phases.push(empty_phase(alloc, START)?)?;
    phases.push(empty_phase(alloc, Meet::Finish)?)?;
    phases.push(empty_phase(alloc, Meet::End)?)?;
    Ok(phases)
}

// A phase with no lines.
fn empty_phase(alloc: Global, meet: Meet) -> Result<Phase, AllocError>
    ensures { IfOk result (λ phase. phase ≡ empty_phase meet) }
{
    let mut calls = Items::new(alloc);
    for _mutator in 0..LIMITS.mutators {
        calls.push(Items::new(alloc))?;
    }
    Ok(Phase { calls, meet })
}

// Each mutator empties both of its variables.
fn emptying_phase(alloc: Global) -> Result<Phase, AllocError>
    ensures { IfOk result (λ phase. phase ≡ emptying_phase) }
{
    let drops = [Op::Drop { var: OBJECT }, Op::Drop { var: NEXT }];
    let mut calls = Items::new(alloc);
    for _mutator in 0..LIMITS.mutators {
        calls.push(Items::from_slice(alloc, &drops)?)?;
    }
    Ok(Phase { calls, meet: START })
}

// The rounds, and the empty phases between them.
fn push_rounds(alloc: Global, phases: &mut Items<Phase>, seed: u64) -> Result<(), AllocError>
    ensures { OnOk result (phases.new ≡ phases.old ++ flat_map (round_phases seed) (first_numbers 6)) }
{
    let tags = all();
    for round in 0..ROUNDS {
        push_round(alloc, phases, &tags, seed, round)?;
    }
    Ok(())
}

fn push_round(
    alloc: Global,
    phases: &mut Items<Phase>,
    tags: &[Tag],
    seed: u64,
    round: u32,
) -> Result<(), AllocError>
    requires tags { tags.now ≡ old_tags }
    requires round { round < 6 }
    ensures { OnOk result (phases.new ≡ phases.old ++ round_phases seed round) }
{
    phases.push(round_phase(alloc, tags, seed, round)?)?;
    if round + 1 == ROUNDS {
        return Ok(());
    }
    phases.push(empty_phase(alloc, START)?)
}

// One list of lines for each mutator.
fn round_phase(alloc: Global, tags: &[Tag], seed: u64, round: u32) -> Result<Phase, AllocError>
    requires tags { tags.now ≡ old_tags }
    requires round { round < 6 }
    ensures { IfOk result (λ phase. phase ≡ phase_of (round_lines seed round) Meet.Finish) }
{
    let mut calls = Items::new(alloc);
    for mutator in 0..LIMITS.mutators {
        calls.push(round_lines(alloc, tags, seed, round, mutator)?)?;
    }
    Ok(Phase {
        calls,
        meet: Meet::Finish,
    })
}

// The lines of a mutator in a round.
fn round_lines(
    alloc: Global,
    tags: &[Tag],
    seed: u64,
    round: u32,
    mutator: u32,
) -> Result<Items<Op>, AllocError>
    requires tags { tags.now ≡ old_tags }
    requires round { round < 6 }
    requires mutator { mutator < 8 }
    ensures { IfOk result (λ ops. ops ≡ round_lines seed round mutator) }
{
    let mut ops = Items::new(alloc);
    for object in 0..OBJECTS {
        let number = 1200 * mutator + OBJECTS * round + object;
        push_object(&mut ops, tags, seed, number)?;
        push_holding(&mut ops, mutator, object)?;
    }
    Ok(ops)
}

// An object with this number, and its cell.
fn push_object(ops: &mut Items<Op>, tags: &[Tag], seed: u64, number: u32) -> Result<(), AllocError>
    requires tags { tags.now ≡ old_tags }
    ensures { OnOk result (ops.new ≡ ops.old ++ object_lines seed number) }
{
    ops.push(Op::New { var: OBJECT })?;
    ops.push(Op::Init {
        var: OBJECT,
        f: 0,
        tag: tag_at(tags, number),
        value: value_of(seed, number),
    })
}

// The tag of an object's cell: the tags are taken in turn.
fn tag_at(tags: &[Tag], number: u32) -> u8
    requires { tags.now ≡ old_tags }
    ensures { result ≡ slice_index old_tags (number % 70) }
{
    tags[(number % 70) as usize].byte()
}

// The value of an object's cell. The sum of the seed's remainder and the number does not overflow.
fn value_of(seed: u64, number: u32) -> u64
    ensures { result ≡ (seed + number) % 2 ^ 48 }
{
    (seed % VALUES + u64::from(number)) % VALUES
}

// Each eighth object is held by the mutator's global, before those that it held.
fn push_holding(ops: &mut Items<Op>, mutator: u32, object: u32) -> Result<(), AllocError>
    ensures { OnOk result (ops.new ≡ ops.old ++ (if object % 8 == 0 then holding_lines mutator else [])) }
{
    if object % HELD != 0 {
        return Ok(());
    }
    ops.push(Op::GetG {
        into: NEXT,
        g: mutator,
    })?;
    ops.push(Op::Link {
        var: OBJECT,
        k: 0,
        target: Some(NEXT),
    })?;
    ops.push(Op::SetG {
        g: mutator,
        target: Some(OBJECT),
    })
}
