// The rule as `atomic_table` takes it, and the kinds of step: a claim, after which the slot is exchanged, a split, and a join,
// which has a load before it and one after it.
use crate::claims::Claims;
use atomic_table::{Join, Play, Split, TableRule};
use entry_base::Chunk;
use std::snapshot::Snapshot;

/// What a pool is made with: its chunks, and the number of its thieves.
#[derive(Drop)]
pub struct Given {
    /// No copy of the chunks: contracts alone speak of it.
    pub chunks: Snapshot<Vec<Chunk>>,
    pub thieves: u32,
}

/// The rule of `specs/Rule.antt`. Its key is what the pool is made with.
pub struct EachOnce;

impl TableRule<Option<Chunk>, Claims, Given> for EachOnce {
    ghost use Rattle.chunk_pool.specs.Claims.{first_claims};
    ghost use Rattle.chunk_pool.specs.Rule.{Kept};

    ghost holds = { λ key t. Kept key.chunks.value.items key.thieves t };

    ghost first = { λ key. first_claims key.chunks.value.items key.thieves };
}

/// A claim of the next number, by which the slot of the chunk comes to the thief.
pub struct ClaimsNext;

impl Play<Option<Chunk>, Claims> for ClaimsNext {
    ghost use Rattle.chunk_pool.specs.Rule.{claimed};

    ghost then = { claimed };
}

/// The emptied slot of the last chunk goes back, before its thief is joined into another.
pub struct GivesBack;

impl Play<Option<Chunk>, Claims> for GivesBack {
    ghost use Rattle.chunk_pool.specs.Rule.{gave_back};

    ghost then = { gave_back };
}

/// A load by which a thief learns whether it took each chunk once.
pub struct Learns;

impl Play<Option<Chunk>, Claims> for Learns {
    ghost use Rattle.chunk_pool.specs.Rule.{learned};

    ghost then = { learned };
}

/// One of the thieves that a thief stands for becomes a thief of its own.
pub struct Parts;

impl Split<Claims> for Parts {
    ghost use Rattle.chunk_pool.specs.Claims.{giver, newcomer};

    ghost left = { giver };

    ghost right = { newcomer };
}

/// A thief takes in another.
pub struct TakesIn;

impl Join<Claims> for TakesIn {
    ghost use Rattle.chunk_pool.specs.Claims.{both, spent};

    ghost both = { both };

    ghost spent = { spent };
}
