// Worked histories of one mutator: its calls with their replies, cycles whose scans are all made at the pause, and what
// can be seen after them.
use super::made::Made::*;
use super::made::{AREA, Made, TAG};
use plain_table::Reply::{Fault, Full, HeapFull, Nothing, Null, Obj, Taken, Value};
use plain_table::Space::{External, Trusted};
use plain_table::Spot::{Global, Ref};
use plain_table::{Act, Field, Reply, Spot};

/// Events in parts.
pub type Parts = &'static [&'static [Made]];

/// Object 0 in variable 0, with a cell at index 1.
pub const ONE_CELL: &[Made] = &[New(0, 0), Init(0, 1, 0xc0)];

/// A cell at 2 finds its field taken.
pub const TAKEN: &[Made] = &[Take(2), Put(2, 0xc1), Bind(0, 2, Taken(0x1_0000))];

/// Two objects in variables, with four cells at 1 to 4.
pub const FOUR_CELLS: &[Made] = &[
    New(0, 0),
    New(1, 1),
    Init(0, 1, 0xc1),
    Init(1, 2, 0xc2),
    Init(2, 3, 0xc3),
    Init(3, 4, 0xc4),
];

/// Four objects in variables, with seven cells at 1 to 7: an external space of two segments is full.
pub const SEVEN_CELLS: &[Made] = &[
    New(0, 0),
    New(1, 1),
    New(2, 2),
    New(3, 3),
    Init(0, 1, 0xc1),
    Init(1, 2, 0xc2),
    Init(2, 3, 0xc3),
    Init(3, 4, 0xc4),
    Init(4, 5, 0xc5),
    Init(5, 6, 0xc6),
    Init(6, 7, 0xc7),
];

/// Of the seven cells those at 1 and 7 are still named by fields in reach.
pub const MOST_DIE: &[Made] = &[Drop(1), Drop(2), Forge(1, 0)];

/// Only those two are kept.
pub const TWO_KEPT: &[Made] = &[Start, Mark(1), Scan(0), Mark(7), Scan(3), Finish];

/// Those at 1, 6 and 7 are kept, and then the object that names the one at 6 gets out of reach.
pub const THREE_KEPT: &[Made] = &[
    Drop(1),
    Forge(1, 0),
    Forge(4, 0),
    Start,
    Mark(1),
    Scan(0),
    Mark(6),
    Scan(2),
    Mark(7),
    Scan(3),
    Finish,
    Drop(2),
];

/// The cell of field 6 moves from 7 to 2.
pub const ONE_MOVES: &[Made] = &[Mark(1), Scan(0), Move(6, 7, 2), Scan(3)];

/// Fields 1 and 6 have the word of the cell at 7, and get evacuation entries at 2 and at 3.
pub const TWO_ENTRIES: &[Made] = &[Mark(1), Move(1, 7, 2), Scan(0), Move(6, 7, 3), Scan(3)];

const A_CELL_IS_LOADED_UNDER_ITS_TAG: Parts = &[
    ONE_CELL,
    &[Load(0, 1, Value(0xc0)), Name(0, 1)],
    &[Raw(External, 0x1_0000, 0x17, Fault), Name(0, 1)],
];

const A_RANGE_OF_TAGS_FINDS_EACH_TAG_IN_IT: Parts = &[
    &[New(0, 0), InitTag(0, 1, 0x20, 0xc0), Name(0, 1)],
    &[
        Asked(External, 0x1_0000, 0x1f, 0x21, Value(0xc0)),
        Name(0, 1),
    ],
    &[Raw(External, 0x1_0000, 0x20, Value(0xc0)), Name(0, 1)],
    &[Asked(External, 0x1_0000, 0x21, 0xff, Fault), Name(0, 1)],
    &[StoreAsked(0x1_0000, 0x01, 0xff, 0xc0, 0xc1)],
    &[Asked(External, 0x1_0000, 0x01, 0x1f, Fault), Name(0, 1)],
    &[Raw(External, 0x1_0000, 0x20, Value(0xc1))],
    &[TNew(0, 1, 0xff, 0xd0), TPub(0, 1)],
    &[Asked(Trusted, 0x1_0000, 0xfe, 0xff, Value(0xd0))],
];

const OTHER_WORDS_GIVE_NULL_OR_A_FAULT: Parts = &[
    ONE_CELL,
    &[Look(0, Null), Raw(External, 0xffff, TAG, Null)],
    &[Raw(External, 0xffff_ffff, TAG, Fault), Look(2, Fault)],
    &[Raw(External, 0x1_abcd, TAG, Value(0xc0))],
];

const A_STORE_UNDER_ANOTHER_TAG_CHANGES_NOTHING: Parts = &[
    ONE_CELL,
    &[Name(0, 1), Raw(External, 0x1_0000, 0x17, Fault)],
    &[Load(0, 1, Value(0xc0)), Name(0, 1)],
    &[Store(0x1_0000, 0xc0, 0xc1), Name(0, 1)],
    &[Swap(1, 0xc1, 0xc2), Load(0, 1, Value(0xc2))],
];

const A_FORGED_WORD_REACHES_A_CELL: Parts = &[
    ONE_CELL,
    &[Forge(0, 1), Load(0, 1, Value(0xc0))],
    &[Store(0x1_0001, 0xc0, 0xc1), Load(0, 1, Value(0xc1))],
    &[Raw(External, 0x1_0000, 0x17, Fault), Look(0, Null)],
    &[Name(0, 1), Raw(External, 0x1_0000, 0x17, Fault)],
    &[Load(0, 1, Value(0xc1))],
];

const A_CELL_THAT_FOUND_ITS_FIELD_TAKEN_IS_FREED: Parts = &[
    ONE_CELL,
    TAKEN,
    &[Load(0, 1, Value(0xc0)), Look(2, Value(0xc1))],
    &[Start, Mark(1), Scan(0), Finish],
    &[Load(0, 1, Value(0xc0)), Look(2, Fault), Take(2)],
];

const A_STORE_KEEPS_A_CELL_THROUGH_THE_CYCLE: Parts = &[
    ONE_CELL,
    TAKEN,
    &[Start, Store(0x2_0000, 0xc1, 0xc2), Mark(1), Scan(0)],
    &[Finish, Look(2, Value(0xc2)), Take(3)],
];

const AN_OBJECT_MADE_IN_THE_CYCLE_IS_NOT_SCANNED: Parts = &[
    &[New(0, 0), Start, New(1, 1), Init(2, 1, 0xc0)],
    &[Scan(0), Finish, Load(2, 1, Value(0xc0))],
];

const A_SEGMENT_HAS_ROOM_FOR_THREE_CELLS: Parts = &[
    &[New(0, 0), New(1, 1), Init(0, 1, 0xc0)],
    &[Init(1, 2, 0xc1), Init(2, 3, 0xc2)],
    &[One(0, Act::Take { space: External }, Full)],
];

const A_COMPACTION_MOVES_A_CELL: Parts = &[
    SEVEN_CELLS,
    MOST_DIE,
    TWO_KEPT,
    &[Look(1, Value(0xc1)), Look(2, Fault), Look(3, Fault)],
    &[Look(4, Fault), Look(5, Fault), Look(6, Fault)],
    &[Look(7, Value(0xc7)), Compact],
    ONE_MOVES,
    &[Finish, Name(6, 2), Load(6, 2, Value(0xc7))],
    &[Load(0, 1, Value(0xc1)), Look(7, Fault), Take(3)],
];

const DEAD_CELLS_BELOW_THE_AREA_ARE_NO_ROOM: Parts = &[
    SEVEN_CELLS,
    MOST_DIE,
    &[Compact, Mark(1), Scan(0), GiveUp(7), Scan(3), Finish],
    &[Name(6, 7), Load(6, 7, Value(0xc7))],
    &[Load(0, 1, Value(0xc1)), Look(6, Fault), Take(2)],
];

const THE_GREATEST_ENTRY_TAKES_THE_CELL: Parts = &[
    SEVEN_CELLS,
    MOST_DIE,
    TWO_KEPT,
    &[Forge(1, 7), Compact],
    TWO_ENTRIES,
    &[Finish, Name(1, 3), Name(6, 3), Load(1, 3, Value(0xc7))],
    &[Look(7, Fault), Forge(1, 0), Init(1, 2, 0xc8), Name(1, 2)],
];

const A_FIELD_THAT_IS_FORGED_IN_THE_CYCLE_IS_VISITED: Parts = &[
    SEVEN_CELLS,
    MOST_DIE,
    TWO_KEPT,
    &[Compact, Forge(1, 7)],
    TWO_ENTRIES,
    &[Finish, Name(1, 3), Name(6, 3), Load(1, 3, Value(0xc7))],
    &[Look(7, Fault), Take(2)],
];

const A_FIELD_THAT_IS_FORGED_BEHIND_ITS_SCAN_IS_LEFT: Parts = &[
    SEVEN_CELLS,
    MOST_DIE,
    TWO_KEPT,
    &[Compact],
    ONE_MOVES,
    &[Forge(1, 7), Finish, Load(6, 2, Value(0xc7))],
    &[Load(1, 7, Fault)],
];

const A_DEAD_EVACUEE_IS_FREED: Parts = &[
    SEVEN_CELLS,
    THREE_KEPT,
    &[Compact, Store(0x6_0000, 0xc6, 0xd0), Look(6, Value(0xd0))],
    ONE_MOVES,
    &[Finish, Look(6, Fault), Name(6, 2)],
    &[Look(2, Value(0xc7)), Take(3)],
];

const AN_ABORT_LEAVES_EVERY_FIELD: Parts = &[
    FOUR_CELLS,
    &[
        Compact,
        Mark(1),
        Mark(2),
        Scan(0),
        Mark(3),
        GiveUp(4),
        Scan(1),
    ],
    &[Finish, Name(3, 4), Load(3, 4, Value(0xc4)), Take(5)],
];

/// The cell at 2 is freed, and then four cells of the area find that one place.
pub const AN_ABORT_FREES_THE_ENTRY_BEFORE_IT: Parts = &[
    SEVEN_CELLS,
    &[Forge(1, 0), Start, Mark(1), Scan(0), Mark(3), Mark(4)],
    &[Scan(1), Mark(5), Mark(6), Scan(2), Mark(7), Scan(3)],
    &[Finish, Compact, Mark(1), Scan(0), Mark(3), Move(3, 4, 2)],
    &[Scan(1), GiveUp(5), Mark(6), Scan(2), Mark(7), Scan(3)],
    &[Finish, Name(3, 4), Name(4, 5), Name(5, 6), Name(6, 7)],
    &[Look(4, Value(0xc4)), Look(5, Value(0xc5)), Take(2)],
];

const A_NEW_CELL_IN_THE_AREA_ABORTS_FIRST: Parts = &[
    FOUR_CELLS,
    &[Forge(3, 0), Compact, Take(5), One(0, Act::Abort, Reply::Ok)],
    &[Put(5, 0xc5), Bind(3, 5, Reply::Ok)],
    &[Mark(1), Mark(2), Scan(0), Mark(3), Mark(5), Scan(1), Finish],
    &[Name(3, 5), Load(3, 5, Value(0xc5)), Take(4)],
];

const SPOT: Spot = Ref { object: 0, k: 2 };

const LINKED: Act = Act::Link {
    spot: SPOT,
    var: Some(1),
};

const UNLINKED: Act = Act::Link {
    spot: SPOT,
    var: None,
};

const FETCHED: Act = Act::Get { var: 2, spot: SPOT };

const GLOBAL: Spot = Global { g: 5 };

const A_FETCHED_OBJECT_KEEPS_ITS_CELL: Parts = &[
    &[New(0, 0), New(1, 1), Init(2, 1, 0xc0)],
    &[One(0, LINKED, Reply::Ok), Drop(1), Start],
    &[One(0, FETCHED, Obj(1)), One(0, UNLINKED, Reply::Ok)],
    &[Scan(0), Mark(1), Scan(1), Finish, Load(2, 1, Value(0xc0))],
    &[Drop(2), Start, Scan(0), Finish],
    &[One(
        0,
        Act::Get {
            var: 3,
            spot: GLOBAL,
        },
        Nothing,
    )],
    &[Look(1, Fault), Take(1)],
];

const A_TRUSTED_CELL_IS_SEEN_ONCE_IT_IS_PUBLISHED: Parts = &[
    &[New(0, 0), TNew(0, 1, TAG, 0xc0), Start, TPub(0, 1)],
    &[MarkTrusted(1), Scan(0), Finish, TLoad(0, 1, Value(0xc0))],
    &[Drop(0), New(1, 1), Start, Scan(1), Finish],
    &[TNew(1, 1, 0x17, 0xc1), Raw(Trusted, 0x1_0000, 0x17, Fault)],
    &[Raw(Trusted, 0xffff, 0x17, Null)],
];

/// The trusted field of object 1 gets the word of that of object 0.
pub const SHARED: Act = Act::Bind {
    field: Field::Trusted { number: 1 },
    word: 0x1_0000,
};

const A_TRUSTED_CELL_IS_SHARED_IN_THE_CYCLE: Parts = &[
    &[
        New(0, 0),
        TNew(0, 1, TAG, 0xc0),
        New(1, 1),
        Start,
        TPub(0, 1),
    ],
    &[TLoad(0, 1, Value(0xc0)), MarkTrusted(1)],
    &[One(0, SHARED, Reply::Ok), Drop(0), Scan(1), Finish],
    &[TLoad(1, 1, Value(0xc0))],
];

const A_TICKET_WHOSE_CELL_IS_FREED_IS_GONE: Parts = &[
    &[New(0, 0), TNew(0, 1, TAG, 0xc0), Drop(0), Start, Finish],
    &[New(0, 1), TNew(1, 1, TAG, 0xc1), TPub(1, 1)],
    &[TLoad(1, 1, Value(0xc1))],
];

const NO_OBJECT_IS_MADE_PAST_THE_LIMIT: Parts = &[&[
    New(0, 0),
    One(0, Act::New { var: 1 }, HeapFull),
]];

const A_DROPPED_OBJECT_IS_NOT_SCANNED: Parts = &[&[New(0, 0), Drop(0), Start, Finish]];

const A_FORGED_OWN_WORD_IS_STILL_VISITED: Parts = &[
    SEVEN_CELLS,
    MOST_DIE,
    TWO_KEPT,
    &[Forge(6, 7), Compact],
    ONE_MOVES,
    &[Finish, Name(6, 2), Load(6, 2, Value(0xc7))],
];

pub const A_WORD_OF_A_FREE_ENTRY_BECOMES_THE_TARGET: Parts = &[
    SEVEN_CELLS,
    MOST_DIE,
    TWO_KEPT,
    &[Forge(1, 2), Load(1, 2, Fault), Compact, Load(1, 2, Fault)],
    ONE_MOVES,
    &[Finish, Load(1, 2, Value(0xc7))],
];

pub const TWO_WORDS_ARE_EXCHANGED: Parts = &[
    SEVEN_CELLS,
    MOST_DIE,
    TWO_KEPT,
    &[Forge(0, 7), Forge(6, 1), Compact],
    &[Move(0, 7, 2), Scan(0), Mark(1), Scan(3), Finish],
    &[Load(0, 2, Value(0xc7)), Load(6, 1, Value(0xc1)), Name(0, 2)],
];

const A_RELEASED_INDEX_FAULTS: Parts = &[
    SEVEN_CELLS,
    MOST_DIE,
    TWO_KEPT,
    &[Compact],
    ONE_MOVES,
    &[Finish, Look(7, Fault), Look(8, Fault), Look(7, Fault)],
];

pub const A_FIELD_THAT_IS_FORGED_AWAY_MOVES_NOTHING: Parts = &[
    SEVEN_CELLS,
    MOST_DIE,
    TWO_KEPT,
    &[Compact],
    ONE_MOVES,
    &[Forge(6, 0), Finish, Look(7, Fault), Look(2, Fault)],
    &[Look(1, Value(0xc1)), Take(2)],
];

/// The number of the first marker.
const MARKER: u32 = 8;

const ROOTED: Act = Act::Link {
    spot: Global { g: 0 },
    var: Some(0),
};

const SCANNED: Act = Act::Scan { object: 0 };

pub const A_MARKER_SCANS_THE_ROOT: Parts = &[
    &[New(0, 0), One(0, ROOTED, Reply::Ok), Start],
    &[One(MARKER, SCANNED, Reply::Ok), New(1, 1)],
    &[Name(2, 0), Name(3, 0), Finish],
];

const MARKED_AT_4: Act = Act::Mark {
    space: External,
    index: 4,
};

pub const A_MARKER_FINDS_NO_ROOM: Parts = &[
    FOUR_CELLS,
    &[
        Compact,
        One(MARKER, Act::Below { start: AREA }, Reply::NoRoom),
    ],
    &[One(MARKER, Act::Abort, Reply::Ok)],
    &[One(MARKER, MARKED_AT_4, Reply::Ok)],
    &[One(MARKER, MARKED_AT_4, Reply::Ok), Forge(0, 5)],
];

const FOUR_CELLS_TAKE_THE_LEAST_INDEXES: Parts = &[FOUR_CELLS, &[Take(5)]];

/// Each with the external segments, of four entries, and the objects that its table has.
pub const LEGAL: &[(u32, u32, Parts)] = &[
    (1, 1, &[]),
    (1, 1, A_CELL_IS_LOADED_UNDER_ITS_TAG),
    (1, 1, A_RANGE_OF_TAGS_FINDS_EACH_TAG_IN_IT),
    (1, 1, OTHER_WORDS_GIVE_NULL_OR_A_FAULT),
    (1, 1, A_STORE_UNDER_ANOTHER_TAG_CHANGES_NOTHING),
    (1, 1, A_FORGED_WORD_REACHES_A_CELL),
    (1, 1, A_CELL_THAT_FOUND_ITS_FIELD_TAKEN_IS_FREED),
    (1, 1, A_STORE_KEEPS_A_CELL_THROUGH_THE_CYCLE),
    (1, 2, AN_OBJECT_MADE_IN_THE_CYCLE_IS_NOT_SCANNED),
    (1, 2, A_SEGMENT_HAS_ROOM_FOR_THREE_CELLS),
    (1, 1, NO_OBJECT_IS_MADE_PAST_THE_LIMIT),
    (1, 1, A_DROPPED_OBJECT_IS_NOT_SCANNED),
    (1, 3, A_FETCHED_OBJECT_KEEPS_ITS_CELL),
    (2, 4, A_COMPACTION_MOVES_A_CELL),
    (2, 4, DEAD_CELLS_BELOW_THE_AREA_ARE_NO_ROOM),
    (2, 4, THE_GREATEST_ENTRY_TAKES_THE_CELL),
    (2, 4, A_FIELD_THAT_IS_FORGED_IN_THE_CYCLE_IS_VISITED),
    (2, 4, A_FIELD_THAT_IS_FORGED_BEHIND_ITS_SCAN_IS_LEFT),
    (2, 4, A_DEAD_EVACUEE_IS_FREED),
    (2, 4, A_FORGED_OWN_WORD_IS_STILL_VISITED),
    (2, 4, A_WORD_OF_A_FREE_ENTRY_BECOMES_THE_TARGET),
    (2, 4, TWO_WORDS_ARE_EXCHANGED),
    (2, 4, A_RELEASED_INDEX_FAULTS),
    (2, 4, A_FIELD_THAT_IS_FORGED_AWAY_MOVES_NOTHING),
    (1, 2, A_MARKER_SCANS_THE_ROOT),
    (2, 2, A_MARKER_FINDS_NO_ROOM),
    (2, 2, FOUR_CELLS_TAKE_THE_LEAST_INDEXES),
    (2, 2, AN_ABORT_LEAVES_EVERY_FIELD),
    (2, 4, AN_ABORT_FREES_THE_ENTRY_BEFORE_IT),
    (2, 2, A_NEW_CELL_IN_THE_AREA_ABORTS_FIRST),
    (1, 2, A_TRUSTED_CELL_IS_SEEN_ONCE_IT_IS_PUBLISHED),
    (1, 2, A_TRUSTED_CELL_IS_SHARED_IN_THE_CYCLE),
    (1, 2, A_TICKET_WHOSE_CELL_IS_FREED_IS_GONE),
];
