// What is refused after a legal history: the last event of each of these.
use super::histories::*;
use super::made::Made::*;
use super::made::{AREA, MEET, TAG};
use plain_table::Reply::{Fault, Full, Index, NoRoom, Ok, Taken, Value};
use plain_table::Space::{External, Trusted};
use plain_table::{Act, Policy};

/// Events that end in a wrong one, all after the same legal history of a table with so many external segments of four
/// entries and so many objects.
pub struct Refusals {
    pub ext: u32,
    pub objects: u32,
    pub before: Parts,
    pub wrong: Parts,
}

const TAKES: Act = Act::Take { space: External };

const START: Act = Act::Start {
    policy: Policy::Never,
};

const BELOW: Act = Act::Below { start: AREA };

const BELOW_5: Act = Act::Below { start: 5 };

const PUBLISH: Act = Act::Publish { index: 1 };

const EVACUATED_AT_5: Act = Act::Evac { index: 5, field: 3 };

const EVACUATED_AT_2: Act = Act::Evac { index: 2, field: 6 };

const DEAD_EVACUATED: Act = Act::Evac { index: 2, field: 5 };

pub const REFUSALS: &[Refusals] = &[
    Refusals {
        ext: 1,
        objects: 2,
        before: &[&[New(0, 0)]],
        wrong: &[
            &[Take(2)], // not the least free index
            &[Take(1), Put(1, 0xc0), Bind(0, 1, Taken(0))], // the field holds 0
            &[Drop(0), Start, Scan(0)], // the object could not be reached at the start
            &[Start, New(1, 1), Scan(1)], // the object was made in the cycle
            &[Start, Finish], // an object in reach is not scanned
            &[Finish], // no cycle
            &[Start, Scan(0), One(0, Act::Finish, Ok)], // a mutator finishes
            &[One(0, START, Ok)], // a mutator starts
            &[Start, Start], // a cycle is under way
        ],
    },
    Refusals {
        ext: 1,
        objects: 1,
        before: &[ONE_CELL],
        wrong: &[
            &[Take(1)], // a cell stands there
            &[One(0, TAKES, Full)], // indexes are free
            &[Put(1, 0xc1)], // a second cell of the index
            &[Look(1, Value(0xc1))], // another value
            &[Look(1, Fault)], // a cell stands there
            &[Name(0, 2)], // another word
            &[Bind(1, 1, Ok)], // the cell is bound already
            &[Take(2), Put(2, 0xc1), Bind(0, 2, Ok)], // the field has a word
            &[Take(2), Put(2, 0xc1), Bind(0, 2, Taken(0x2_0000))], // the field has another word
            &[Mark(1)], // no cycle
            &[Drop(0), Start, Mark(1)], // no field in reach named the cell
            &[Forge(1, 2), Start, Mark(2)], // no cell
            &[Start, Scan(0)], // the field's cell is not marked
            &[Start, Mark(1), Scan(0), Scan(0)], // a second scan
            &[Compact, One(MEET, Act::Abort, Ok)], // one segment has no area
        ],
    },
    Refusals {
        ext: 1,
        objects: 1,
        before: &[ONE_CELL, TAKEN],
        wrong: &[
            &[Bind(1, 2, Ok)], // the cell is not about to be bound any more
            &[Start, Mark(2)], // no field ever named the cell
            &[Start, Mark(1), Scan(0), Finish, Take(3)], // not the least freed index
        ],
    },
    Refusals {
        ext: 1,
        objects: 2,
        before: &[&[New(0, 0), TNew(0, 1, TAG, 0xc0)]],
        wrong: &[
            &[One(1, PUBLISH, Ok)], // no ticket
            &[TPub(0, 1), One(0, PUBLISH, Ok)], // no ticket any more
            &[Drop(0), Start, Finish, One(0, PUBLISH, Ok)], // its cell is freed
            &[New(1, 1), Start, One(0, SHARED, Ok)], // the cell is not marked in the cycle
            &[Raw(Trusted, 0x1_0000, TAG, Value(0xc0))], // not published
        ],
    },
    Refusals {
        ext: 2,
        objects: 2,
        before: &[FOUR_CELLS],
        wrong: &[
            &[Start, One(MEET, BELOW, NoRoom)], // no area
            &[Compact, One(MEET, BELOW, Index(4))], // at the start
            &[Compact, One(MEET, BELOW, Index(5))], // above it
            &[Compact, Take(5), Put(5, 0xc5)], // in the area with no abort
            &[Compact, Take(5), One(0, EVACUATED_AT_5, Ok)], // above the start
        ],
    },
    Refusals {
        ext: 2,
        objects: 4,
        before: &[SEVEN_CELLS, THREE_KEPT, &[Compact]],
        wrong: &[
            &[One(MEET, BELOW_5, Index(2))], // another start
            &[One(MEET, BELOW, Index(3))], // not the least free index
            &[One(MEET, BELOW, NoRoom)], // 2 is free
            &[One(MEET, Act::Abort, Ok)], // 2 is free
            &[Mark(1), Scan(0), Mark(7), Scan(3)], // the field has no evacuation entry
            &[Mark(1), Scan(0), Finish], // object 3 is not scanned
            &[Take(2), One(MEET, EVACUATED_AT_2, Ok)], // another number took the index
            &[Take(2), One(0, DEAD_EVACUATED, Ok)], // the object could not be reached at the start
        ],
    },
    Refusals {
        ext: 2,
        objects: 4,
        before: &[
            SEVEN_CELLS,
            THREE_KEPT,
            &[Compact, Store(0x6_0000, 0xc6, 0xd0)],
            ONE_MOVES,
            &[Finish],
        ],
        wrong: &[
            &[Name(6, 7)], // the field is rewritten
            &[Look(7, Value(0xc7))], // the cell moved
            &[Look(6, Value(0xd0))], // the dead evacuee is freed
        ],
    },
    Refusals {
        ext: 2,
        objects: 4,
        before: &[
            SEVEN_CELLS,
            MOST_DIE,
            TWO_KEPT,
            &[Forge(1, 7), Compact],
            TWO_ENTRIES,
            &[Finish],
        ],
        wrong: &[
            &[Look(2, Value(0xc7))], // the greatest entry is the cell's place
            &[Name(1, 2)], // and both fields have its word
            &[Take(4)], // 2 is free
        ],
    },
    Refusals {
        ext: 2,
        objects: 4,
        before: AN_ABORT_FREES_THE_ENTRY_BEFORE_IT,
        wrong: &[
            &[Name(3, 2)], // the compaction was aborted
        ],
    },
    Refusals {
        ext: 2,
        objects: 4,
        before: A_WORD_OF_A_FREE_ENTRY_BECOMES_THE_TARGET,
        wrong: &[&[Load(1, 2, Fault)]], // the moved cell stands there
    },
    Refusals {
        ext: 2,
        objects: 4,
        before: TWO_WORDS_ARE_EXCHANGED,
        wrong: &[
            &[Name(0, 7)], // the field is rewritten
            &[Name(6, 2)], // its cell stays
        ],
    },
    Refusals {
        ext: 2,
        objects: 4,
        before: A_FIELD_THAT_IS_FORGED_AWAY_MOVES_NOTHING,
        wrong: &[&[Look(2, Value(0xc7))]], // no field named the cell any more
    },
    Refusals {
        ext: 2,
        objects: 2,
        before: A_MARKER_FINDS_NO_ROOM,
        wrong: &[&[Mark(5)]], // no cell stands there
    },
    Refusals {
        ext: 1,
        objects: 2,
        before: A_MARKER_SCANS_THE_ROOT,
        wrong: &[&[Scan(0)]], // the cycle is over
    },
];
