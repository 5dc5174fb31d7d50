// What mutator 0 does and what happens at a meet, each as its events. External fields, objects and indexes are given by
// their numbers, and a word by its index, if nothing else is said; tags are `TAG`.
use plain_table::{Act, Event, Field, Policy, Reply, Space};
use std::alloc::Global;
use std::test::Fail;

pub const TAG: u8 = 0x0f;

/// The first index of each evacuation area.
pub const AREA: u32 = 4;

/// The number of the meet.
pub const MEET: u32 = 12;

#[derive(Clone, Copy)]
pub enum Made {
    /// One event, by its number and with its reply.
    One(u32, Act, Reply),
    /// The variable holds a new object with this number.
    New(u32, u32),
    Drop(u32),
    /// The field gets a new cell at the index with the value, and the steps of that.
    Init(u32, u32, u64),
    Take(u32),
    Put(u32, u64),
    Bind(u32, u32, Reply),
    Name(u32, u32),
    /// The field has the word of the index, and a look there answers so.
    Load(u32, u32, Reply),
    Look(u32, Reply),
    /// A look at any word under any tag, and under any range of tags from the first to the last.
    Raw(Space, u32, u8, Reply),
    Asked(Space, u32, u8, u8, Reply),
    /// The field gets a new cell at the index with the tag and the value.
    InitTag(u32, u32, u8, u64),
    /// A store at any word under any range, and the old value that it finds.
    StoreAsked(u32, u8, u8, u64, u64),
    /// A store at any word, and an exchange at an index, after a look that finds the old value.
    Store(u32, u64, u64),
    Swap(u32, u64, u64),
    Forge(u32, u32),
    /// The trusted field of the object gets a new cell at the index with the tag and the value, is published, and is
    /// loaded.
    TNew(u32, u32, u8, u64),
    TPub(u32, u32),
    TLoad(u32, u32, Reply),
    /// A cycle starts without an area, or with one.
    Start,
    Compact,
    /// A scan comes to a cell that stays.
    Mark(u32),
    MarkTrusted(u32),
    /// A scan of the field comes to a cell in the area, and gives the field the evacuation entry, or finds no room.
    Move(u32, u32, u32),
    GiveUp(u32),
    Scan(u32),
    Finish,
}

/// Adds the events, in order.
pub fn append(events: &mut Vec<Event>, part: &[Made]) -> Result<(), Fail> {
    for made in part {
        append_one(events, *made)?;
    }
    Ok(())
}

/// The events of all parts, in order.
pub fn events_of(alloc: Global, parts: &[&[Made]]) -> Result<Vec<Event>, Fail> {
    let mut events = Vec::new(alloc);
    for part in parts {
        append(&mut events, part)?;
    }
    Ok(events)
}

fn append_one(events: &mut Vec<Event>, made: Made) -> Result<(), Fail> {
    match made {
        Made::One(by, act, said) => push(events, by, act, said),
        Made::New(var, object) => push(events, 0, Act::New { var }, Reply::Obj(object)),
        Made::Drop(var) => push(events, 0, Act::Drop { var }, Reply::Ok),
        Made::Init(number, index, value) => {
            take(events, Space::External, index)?;
            put(events, Space::External, index, TAG, value)?;
            bind(events, Field::External { number }, index, Reply::Ok)
        }
        Made::Take(index) => take(events, Space::External, index),
        Made::Put(index, value) => put(events, Space::External, index, TAG, value),
        Made::Bind(number, index, said) => bind(events, Field::External { number }, index, said),
        Made::Name(number, index) => name(events, Field::External { number }, index),
        Made::Load(number, index, said) => {
            name(events, Field::External { number }, index)?;
            look(events, Space::External, word_of(index), TAG, said)
        }
        Made::Look(index, said) => look(events, Space::External, word_of(index), TAG, said),
        Made::Raw(space, word, tag, said) => look(events, space, word, tag, said),
        Made::Asked(space, word, first, last, said) => ask(
            events,
            space,
            word,
            (first, last),
            said,
        ),
        Made::InitTag(number, index, tag, value) => {
            take(events, Space::External, index)?;
            put(events, Space::External, index, tag, value)?;
            bind(events, Field::External { number }, index, Reply::Ok)
        }
        Made::Store(word, old, value) => store(events, word, (TAG, TAG), old, value),
        Made::StoreAsked(word, first, last, old, value) => store(
            events,
            word,
            (first, last),
            old,
            value,
        ),
        Made::Swap(index, old, value) => {
            let (word, first, last) = (word_of(index), TAG, TAG);
            look(events, Space::External, word, TAG, Reply::Value(old))?;
            let act = Act::Swap {
                word,
                first,
                last,
                value,
            };
            push(events, 0, act, Reply::Value(old))
        }
        Made::Forge(number, index) => {
            let word = word_of(index);
            push(events, 0, Act::Forge { number, word }, Reply::Ok)
        }
        Made::TNew(number, index, tag, value) => {
            take(events, Space::Trusted, index)?;
            put(events, Space::Trusted, index, tag, value)?;
            bind(events, Field::Trusted { number }, index, Reply::Ok)
        }
        Made::TPub(number, index) => {
            name(events, Field::Trusted { number }, index)?;
            push(events, 0, Act::Publish { index }, Reply::Ok)
        }
        Made::TLoad(number, index, said) => {
            name(events, Field::Trusted { number }, index)?;
            look(events, Space::Trusted, word_of(index), TAG, said)
        }
        Made::Start => start(events, Policy::Never),
        Made::Compact => start(events, Policy::Always),
        Made::Mark(index) => mark(events, Space::External, index),
        Made::MarkTrusted(index) => mark(events, Space::Trusted, index),
        Made::Move(field, index, entry) => {
            mark(events, Space::External, index)?;
            push(
                events,
                MEET,
                Act::Below { start: AREA },
                Reply::Index(entry),
            )?;
            let index = entry;
            push(events, MEET, Act::Evac { index, field }, Reply::Ok)
        }
        Made::GiveUp(index) => {
            mark(events, Space::External, index)?;
            push(events, MEET, Act::Below { start: AREA }, Reply::NoRoom)?;
            push(events, MEET, Act::Abort, Reply::Ok)
        }
        Made::Scan(object) => push(events, MEET, Act::Scan { object }, Reply::Ok),
        Made::Finish => push(events, MEET, Act::Finish, Reply::Ok),
    }
}

/// The word of an index below 65,536.
fn word_of(index: u32) -> u32 {
    index << 16
}

fn push(events: &mut Vec<Event>, by: u32, act: Act, said: Reply) -> Result<(), Fail> {
    events.push(Event { by, act, said })?;
    Ok(())
}

fn take(events: &mut Vec<Event>, space: Space, index: u32) -> Result<(), Fail> {
    push(events, 0, Act::Take { space }, Reply::Index(index))
}

fn put(e: &mut Vec<Event>, space: Space, index: u32, tag: u8, value: u64) -> Result<(), Fail> {
    let act = Act::Put {
        space,
        index,
        tag,
        value,
    };
    push(e, 0, act, Reply::Ok)
}

fn bind(events: &mut Vec<Event>, field: Field, index: u32, said: Reply) -> Result<(), Fail> {
    let word = word_of(index);
    push(events, 0, Act::Bind { field, word }, said)
}

fn name(events: &mut Vec<Event>, field: Field, index: u32) -> Result<(), Fail> {
    push(events, 0, Act::Name { field }, Reply::Word(word_of(index)))
}

fn look(e: &mut Vec<Event>, space: Space, word: u32, tag: u8, said: Reply) -> Result<(), Fail> {
    ask(e, space, word, (tag, tag), said)
}

/// A look under the range from the first to the last tag.
fn ask(
    e: &mut Vec<Event>,
    space: Space,
    word: u32,
    range: (u8, u8),
    said: Reply,
) -> Result<(), Fail> {
    let (first, last) = range;
    let act = Act::Look {
        space,
        word,
        first,
        last,
    };
    push(e, 0, act, said)
}

/// A look that finds the old value, and a store of another one.
fn store(e: &mut Vec<Event>, word: u32, range: (u8, u8), old: u64, value: u64) -> Result<(), Fail> {
    ask(e, Space::External, word, range, Reply::Value(old))?;
    let (first, last) = range;
    let act = Act::Set {
        word,
        first,
        last,
        value,
    };
    push(e, 0, act, Reply::Ok)
}

fn start(events: &mut Vec<Event>, policy: Policy) -> Result<(), Fail> {
    push(events, MEET, Act::Start { policy }, Reply::Ok)
}

fn mark(events: &mut Vec<Event>, space: Space, index: u32) -> Result<(), Fail> {
    push(events, MEET, Act::Mark { space, index }, Reply::Ok)
}
