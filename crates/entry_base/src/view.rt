// What a session knows and holds. No value of these types is made: contracts alone speak of them.
use entry_word::{Pending, Shape};
use plain_table::{Event, Field, Space};
use std::collections::LinkedList;

/// The image that a phase was opened with, as lists.
pub struct Opening {
    pub shape: Shape,
    pub words: LinkedList<u64>,
    pub vars: LinkedList<u32>,
    pub pending: LinkedList<Option<Pending>>,
}

/// A number took an index of a space, or filled it.
pub struct Claim {
    pub number: u32,
    pub space: Space,
    pub index: u32,
}

/// A fact that no step of a phase ends: once true, it stays true, whoever steps. `specs/Facts.antt` says each exactly.
pub enum Fact {
    /// A cell with the tag stands at the index.
    Cell {
        space: Space,
        index: u32,
        tag: u8,
    },
    /// A trusted cell with the tag and the value stands at the index.
    Trusted {
        index: u32,
        tag: u8,
        value: u64,
    },
    /// A trusted cell stands at the index, and no number is about to bind it.
    Settled {
        index: u32,
    },
    /// No index from 1 below `below` is free.
    Used {
        space: Space,
        below: u32,
    },
    /// At least so many objects are made.
    Count {
        count: u64,
    },
    /// The object is old or born in the cycle.
    Traced {
        object: u32,
    },
    /// The compaction is aborted.
    Aborted,
    /// The word stood in the field since the start of the cycle.
    Touched {
        field: Field,
        word: u32,
    },
    /// The index is marked.
    Marked {
        space: Space,
        index: u32,
    },
    /// A cell at the index is marked, where one stands there.
    Visited {
        space: Space,
        index: u32,
    },
    /// Where the field is bound and has the word, its cell does not move without it.
    Placed {
        field: Field,
        word: u32,
    },
    /// Where the field is bound, it has the word or is safe.
    Read {
        field: Field,
        word: u32,
    },
    /// The object is shaded.
    Shaded {
        object: u32,
    },
    /// A cell stands at the index, and its word is this one or it is marked.
    Entry {
        space: Space,
        index: u32,
        word: u64,
    },
    /// The freelist word was this one when so many indexes had been taken.
    Freelist {
        space: Space,
        word: u64,
        takes: u64,
    },
    /// The index is used, or its entry is this free entry.
    Link {
        space: Space,
        index: u32,
        word: u64,
    },
    /// The entry can be used: it has left no access.
    Linked {
        space: Space,
        index: u32,
    },
    /// The reference has this word, or nothing, or a shaded object.
    Reference {
        object: u32,
        k: u32,
        word: u64,
    },
    /// Of two histories that were put together the longer one begins with the shorter one, and goes on with no event of these
    /// numbers, those of the view that had the shorter one.
    Joined {
        short: LinkedList<Event>,
        long: LinkedList<Event>,
        numbers: LinkedList<u32>,
    },
}

/// What a session, or a chunk of objects that is handed over, knows and holds.
pub struct View {
    pub opening: Opening,
    /// The number of its events. A chunk has 13, which stands in no list.
    pub number: u32,
    /// Its own number, those joined into it, and those that it may still give.
    pub numbers: LinkedList<u32>,
    /// The history that it has seen.
    pub seen: LinkedList<Event>,
    /// The 128 variables and 8 tickets, as in an image; those of its numbers are right.
    pub vars: LinkedList<u32>,
    pub pending: LinkedList<Option<Pending>>,
    /// The indexes that its numbers took and did not fill, and those filled and not bound.
    pub owed: LinkedList<Claim>,
    pub fresh: LinkedList<Claim>,
    /// The shaded objects whose scan is its own.
    pub hands: LinkedList<u32>,
    /// The objects that it cut off in chunks, or that a session joined into it did.
    pub cut: LinkedList<u32>,
    pub facts: LinkedList<Fact>,
}
