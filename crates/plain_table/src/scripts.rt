// What a user asks for: limits, operations, meets, phases and scripts.
use sqlite_items::Items;

/// The sizes that a script names in its first line.
#[derive(Clone, Copy, Debug, PartialEq, Eq)]
pub struct Limits {
    /// The entries of a segment: 4, 16, 64 or 256.
    pub seg: u32,
    /// The segments of the external space, from 1 to 65,536 / `seg`.
    pub ext: u32,
    /// The segments of the trusted space, from 1 to 65,536 / `seg`.
    pub tru: u32,
    /// The most objects that can be made, from 1 to 16,384.
    pub objects: u32,
    /// The mutators, from 1 to 8, numbered from 0.
    pub mutators: u32,
    /// The markers, from 0 to 4, numbered from 8.
    pub markers: u32,
}

/// When a collection cycle chooses an evacuation area.
#[derive(Clone, Copy, Debug, PartialEq, Eq)]
pub enum Policy {
    /// Where enough of the space is free.
    Auto,
    /// Wherever the space has two segments in use.
    Always,
    /// Nowhere.
    Never,
}

/// One operation of a mutator. A variable (`var`, `into`, `from`, `to`, `target`) is a number below 16, a reference
/// `k` below 4, a global `g` below 16, an external field `f` below 2, a `tag` a byte from 1 on, `first` and `last` the
/// least and the greatest tag of the asked range (`IsAsked` in `specs/Rows.antt`), a `value` a number below 2^48, and a
/// `word` any index word.
#[derive(Clone, Copy, Debug, PartialEq, Eq)]
pub enum Op {
    /// Makes an object, which the variable then holds.
    New {
        var: u32,
    },
    /// Empties the variable.
    Drop {
        var: u32,
    },
    /// Reference `k` of the variable's object becomes the target's object, or nothing.
    Link {
        var: u32,
        k: u32,
        target: Option<u32>,
    },
    /// The variable `into` becomes reference `k` of the object of `var`.
    Fetch {
        into: u32,
        var: u32,
        k: u32,
    },
    /// The global becomes the target's object, or nothing.
    SetG {
        g: u32,
        target: Option<u32>,
    },
    /// The variable becomes the global.
    GetG {
        into: u32,
        g: u32,
    },
    /// A new external cell for field `f` of the variable's object.
    Init {
        var: u32,
        f: u32,
        tag: u8,
        value: u64,
    },
    /// Loads by field `f` under a range of tags.
    Load {
        var: u32,
        f: u32,
        first: u8,
        last: u8,
    },
    /// Stores by field `f` under a range of tags; the cell keeps its tag.
    Store {
        var: u32,
        f: u32,
        first: u8,
        last: u8,
        value: u64,
    },
    /// Exchanges by field `f` under a range of tags; the cell keeps its tag.
    Swap {
        var: u32,
        f: u32,
        first: u8,
        last: u8,
        value: u64,
    },
    /// Asks the word of field `f`.
    Name {
        var: u32,
        f: u32,
    },
    /// Writes any word into field `f`.
    Forge {
        var: u32,
        f: u32,
        word: u32,
    },
    /// Loads by any word of the external space, under a range of tags.
    Raw {
        word: u32,
        first: u8,
        last: u8,
    },
    /// Stores by any word of the external space, under a range of tags.
    RawSet {
        word: u32,
        first: u8,
        last: u8,
        value: u64,
    },
    /// A new unpublished trusted cell for the variable's object.
    TNew {
        var: u32,
        tag: u8,
        value: u64,
    },
    /// Publishes the cell of the trusted field.
    TPub {
        var: u32,
    },
    /// Loads by the trusted field, under a range of tags.
    TLoad {
        var: u32,
        first: u8,
        last: u8,
    },
    /// Looks into the trusted space by any word, under a range of tags.
    TRaw {
        word: u32,
        first: u8,
        last: u8,
    },
    /// The trusted field of `to` gets the word of that of `from`.
    Share {
        from: u32,
        to: u32,
    },
}

/// What ends a phase, when no mutator runs.
#[derive(Clone, Copy, Debug, PartialEq, Eq)]
pub enum Meet {
    /// Nothing but the meeting itself.
    Plain,
    /// A collection cycle starts.
    Start { policy: Policy },
    /// The cycle is finished and the table swept.
    Finish,
    /// The script ends.
    End,
}

/// The calls between two meets, one list a mutator in the order of its lines, and the meet that follows them.
#[derive(Debug, Drop)]
pub struct Phase {
    pub calls: Items<Items<Op>>,
    pub meet: Meet,
}

/// A whole script. Its version is 1 or 2: in version 1 each tag has exactly four set bits, and each asked range is that of
/// one tag. The last phase, and no other, has the meet `End`.
#[derive(Debug, Drop)]
pub struct Script {
    pub version: u32,
    pub limits: Limits,
    pub phases: Items<Phase>,
}
