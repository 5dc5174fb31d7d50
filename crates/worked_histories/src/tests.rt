ghost use Rattle.plain_table.specs.Ranges.{IsInRange};

mod histories;
mod made;
mod refusals;

use self::histories::LEGAL;
use self::made::{append, events_of};
use self::refusals::REFUSALS;
use crate::asserts::assert_is;
use plain_program::{State, replay, step};
use plain_table::{Act, Event, Field, Limits, Reply, Space};
use std::alloc::Global;
use std::process::Abort;
use std::test::Fail;

const LIMITS: Limits = Limits {
    seg: 4,
    ext: 1,
    tru: 1,
    objects: 1,
    mutators: 1,
    markers: 0,
};

const SPACE: Space = Space::External;

const FIELD: Field = Field::External { number: 0 };

fn event(act: Act, said: Reply) -> Event {
    Event { by: 0, act, said }
}

fn take(index: u32) -> Event {
    event(Act::Take { space: SPACE }, Reply::Index(index))
}

fn put(index: u32) -> Event {
    let act = Act::Put {
        space: SPACE,
        index,
        tag: 0x0f,
        value: 0xc0,
    };
    event(act, Reply::Ok)
}

fn bind(by: u32, word: u32) -> Event {
    Event {
        by,
        act: Act::Bind { field: FIELD, word },
        said: Reply::Ok,
    }
}

fn name(word: u32) -> Event {
    event(Act::Name { field: FIELD }, Reply::Word(word))
}

fn look(word: u32, tag: u8, said: Reply) -> Event {
    event(
        Act::Look {
            space: SPACE,
            word,
            first: tag,
            last: tag,
        },
        said,
    )
}

fn set(tag: u8) -> Event {
    let act = Act::Set {
        word: 0x0001_0001,
        first: tag,
        last: tag,
        value: 0xc1,
    };
    event(act, Reply::Ok)
}

fn swap(said: u64) -> Event {
    let act = Act::Swap {
        word: 0x0001_0000,
        first: 0x0f,
        last: 0x0f,
        value: 0xc2,
    };
    event(act, Reply::Value(said))
}

/// A cell is taken, put, bound and read; then it is written by a word, exchanged, and its field forged.
fn history() -> [Event; 13] {
    let forge = Act::Forge {
        number: 0,
        word: 0x0002_0000,
    };
    [
        event(Act::New { var: 0 }, Reply::Obj(0)),
        take(1),
        put(1),
        bind(0, 0x0001_0000),
        name(0x0001_0000),
        look(0x0001_0000, 0x0f, Reply::Value(0xc0)),
        look(0x0001_0000, 0x17, Reply::Fault),
        set(0x0f),
        swap(0xc1),
        event(forge, Reply::Ok),
        name(0x0002_0000),
        look(0x0002_0000, 0x0f, Reply::Fault),
        look(0x0000_ffff, 0x0f, Reply::Null),
    ]
}

/// An event that is wrong after so many events of the history.
fn wrong() -> [(usize, Event); 7] {
    [
        (1, take(2)),
        (2, put(2)),
        (3, put(1)),
        (3, bind(1, 0x0001_0000)),
        (5, look(0x0001_0000, 0x17, Reply::Value(0xc0))),
        (7, set(0x17)),
        (8, swap(0xc2)),
    ]
}

// Each of the events is a step, one after the other.
fn assert_steps(
    rt: &(impl AllocGlobal + Abort),
    state: &mut State,
    events: &[Event],
) -> Result<(), Fail> {
    for event in events {
        let is_made = step(rt.alloc(), state, event)?;
        assert_is(rt, (*event, is_made), (*event, true));
    }
    Ok(())
}

#[test]
fn a_legal_history_is_made(rt: HostRuntime) -> Result<(), Fail> {
    let events = history();
    assert_is(&rt, replay(rt.alloc(), LIMITS, &events)?, true);
    let mut state = State::start(rt.alloc(), LIMITS)?;
    assert_steps(&rt, &mut state, &events)?;
    assert_is(&rt, state.spent(), false);
    Ok(())
}

#[test]
fn a_long_history_is_replayed(rt: HostRuntime) -> Result<(), Fail> {
    let mut events = Vec::new(rt.alloc());
    for event in history() {
        events.push(event)?;
    }
    for _ in 0..20_000 {
        events.push(look(0x0001_0000, 0x0f, Reply::Value(0xc2)))?;
    }
    let is_legal = replay(rt.alloc(), LIMITS, &events)?;
    events.push(look(0x0001_0000, 0x0f, Reply::Value(0xc1)))?;
    let is_wrong = !replay(rt.alloc(), LIMITS, &events)?;
    assert_is(&rt, (is_legal, is_wrong), (true, true));
    Ok(())
}

#[test]
fn a_wrong_event_is_refused(rt: HostRuntime) -> Result<(), Fail> {
    for (before, event) in wrong() {
        let history = history();
        let made = history.get(..before).expect(&rt, "fewer events");
        let mut events = Vec::from_slice(rt.alloc(), made)?;
        let mut state = State::start(rt.alloc(), LIMITS)?;
        assert_steps(&rt, &mut state, events.as_slice())?;
        let is_made = step(rt.alloc(), &mut state, &event)?;
        events.push(event)?;
        let is_legal = replay(rt.alloc(), LIMITS, &events)?;
        assert_is(&rt, (event, is_made, is_legal), (event, false, false));
    }
    Ok(())
}

/// A table with so many external segments of four entries and so many objects.
fn limits(rt: &impl Abort, ext: u32, objects: u32) -> Limits
    ensures { IsInRange result }
{
    assert!(rt; 1 <= ext && ext <= 2 && 1 <= objects && objects <= 4);
    Limits {
        ext,
        objects,
        ..LIMITS
    }
}

/// Another reply than the one that was given.
fn other(said: Reply) -> Reply {
    match said {
        Reply::Obj(object) => Reply::Obj(object ^ 1),
        Reply::Word(word) => Reply::Word(word ^ 0x1_0000),
        Reply::Value(value) => Reply::Value(value ^ 1),
        Reply::Taken(word) => Reply::Taken(word ^ 0x1_0000),
        Reply::Index(index) => Reply::Index(index ^ 1),
        Reply::Ok => Reply::Nothing,
        _ => Reply::Ok,
    }
}

#[test]
fn the_worked_histories_are_legal_with_no_other_reply(rt: HostRuntime) -> Result<(), Fail> {
    for (ext, objects, parts) in LEGAL {
        let limits = limits(&rt, *ext, *objects);
        let events = events_of(rt.alloc(), parts)?;
        let mut state = State::start(rt.alloc(), limits)?;
        for event in &events {
            let said = other(event.said);
            let wrong = Event { said, ..*event };
            let is_wrong = !step(rt.alloc(), &mut state, &wrong)?;
            let is_legal = step(rt.alloc(), &mut state, event)?;
            assert_is(&rt, (*event, is_wrong, is_legal), (*event, true, true));
        }
        assert_is(&rt, replay(rt.alloc(), limits, &events)?, true);
    }
    Ok(())
}

#[test]
fn a_wrong_last_event_is_refused(rt: HostRuntime) -> Result<(), Fail> {
    for refusals in REFUSALS {
        let limits = limits(&rt, refusals.ext, refusals.objects);
        for part in refusals.wrong {
            let mut events = events_of(rt.alloc(), refusals.before)?;
            append(&mut events, part)?;
            let is_legal = replay(rt.alloc(), limits, &events)?;
            let last = events.pop().expect(&rt, "no event");
            let mut state = State::start(rt.alloc(), limits)?;
            assert_steps(&rt, &mut state, events.as_slice())?;
            let is_made = step(rt.alloc(), &mut state, &last)?;
            assert_is(&rt, (last, is_legal, is_made), (last, false, false));
        }
    }
    Ok(())
}
