// What happens to a table: its two spaces, the places of objects, and the events of a history.
use crate::{Policy, Reply};

/// The two spaces of entries.
#[derive(Clone, Copy, Debug, PartialEq, Eq)]
pub enum Space {
    External,
    Trusted,
}

/// A resource in the table: the number of its put, its tag from 1 on, its value below 2^48, and whether a look can see it.
#[derive(Clone, Copy, Debug, PartialEq, Eq)]
pub struct Cell {
    pub id: u64,
    pub tag: u8,
    pub value: u64,
    pub shown: bool,
}

/// A place that holds an object or nothing, other than the variables: a global below 16, or reference `k` below 4 of
/// an object.
#[derive(Clone, Copy, Debug, PartialEq, Eq)]
pub enum Spot {
    Global { g: u32 },
    Ref { object: u32, k: u32 },
}

/// A place that holds an index word. External field `f` of object `o` has the number 2 * o + f, and the trusted field
/// of object `o` has the number `o`.
#[derive(Clone, Copy, Debug, PartialEq, Eq)]
pub enum Field {
    External { number: u32 },
    Trusted { number: u32 },
}

/// What an event does. Its meaning is its row in `specs/Rows.antt`. `first` and `last` are the least and the greatest tag
/// of the range that a look, a store or an exchange asks.
#[derive(Clone, Copy, Debug, PartialEq, Eq)]
pub enum Act {
    New {
        var: u32,
    },
    Drop {
        var: u32,
    },
    Get {
        var: u32,
        spot: Spot,
    },
    Link {
        spot: Spot,
        var: Option<u32>,
    },
    Take {
        space: Space,
    },
    Below {
        start: u32,
    },
    Abort,
    Put {
        space: Space,
        index: u32,
        tag: u8,
        value: u64,
    },
    Bind {
        field: Field,
        word: u32,
    },
    Name {
        field: Field,
    },
    Look {
        space: Space,
        word: u32,
        first: u8,
        last: u8,
    },
    Set {
        word: u32,
        first: u8,
        last: u8,
        value: u64,
    },
    Swap {
        word: u32,
        first: u8,
        last: u8,
        value: u64,
    },
    Forge {
        number: u32,
        word: u32,
    },
    Publish {
        index: u32,
    },
    Mark {
        space: Space,
        index: u32,
    },
    Evac {
        index: u32,
        field: u32,
    },
    Scan {
        object: u32,
    },
    Start {
        policy: Policy,
    },
    Finish,
}

/// One event of a history: the number that made it (a mutator from 0, a marker from 8, or 12 for a meet), what it did
/// and what it was answered.
#[derive(Clone, Copy, Debug, PartialEq, Eq)]
pub struct Event {
    pub by: u32,
    pub act: Act,
    pub said: Reply,
}
