// What a run answers: replies, the reports of meets and phases, and the outcome of a script.
use sqlite_items::Items;

/// The answer to one operation, or of one event.
#[derive(Clone, Copy, Debug, PartialEq, Eq)]
pub enum Reply {
    Ok,
    /// The object with this number.
    Obj(u32),
    /// No further object can be made.
    HeapFull,
    /// The place holds no object.
    Nothing,
    /// A variable that the call uses holds no object.
    Empty,
    /// A resource, below 2^48.
    Value(u64),
    /// The word names entry 0.
    Null,
    /// No resource under the asked tag stands there.
    Fault,
    /// The index word of a field.
    Word(u32),
    /// The field held this word already.
    Taken(u32),
    /// No index of the space is free.
    Full,
    /// The mutator has an unpublished entry already.
    Pending,
    /// The entry is not the mutator's to publish.
    NotYours,
    /// An index, in events alone.
    Index(u32),
    /// No index below the evacuation area is free, in events alone.
    NoRoom,
}

/// How a compaction ended.
#[derive(Clone, Copy, Debug, PartialEq, Eq)]
pub enum Compaction {
    /// The cycle had no evacuation area.
    NoArea,
    /// Every kept cell of the area was moved.
    Done,
    /// There was no room, and nothing was moved.
    Aborted,
}

/// What a sweep did: external cells kept, freed and moved, the segments in use after it, and trusted cells kept and
/// freed.
#[derive(Clone, Copy, Debug, PartialEq, Eq)]
pub struct SweepReport {
    pub kept: u32,
    pub freed: u32,
    pub moved: u32,
    pub segs: u32,
    pub trusted: u32,
    pub tfreed: u32,
    pub compaction: Compaction,
}

/// The report of a meet, by its kind.
#[derive(Clone, Copy, Debug, PartialEq, Eq)]
pub enum MeetReport {
    Plain,
    /// A cycle started, with the first index of its evacuation area, where it has one.
    Started { area: Option<u32> },
    Swept { report: SweepReport },
    Ended,
}

/// The replies of a phase, one list a mutator in the order of its calls, and the report of its meet.
#[derive(Debug, Drop)]
pub struct PhaseReport {
    pub replies: Items<Items<Reply>>,
    pub meet: MeetReport,
}

/// What a run of a whole script answers: its phases, the cells of both spaces and the objects at the end, the sum of
/// the values of all external cells modulo 2^48, and how many external cells were put in all.
#[derive(Debug, Drop)]
pub struct Outcome {
    pub phases: Items<PhaseReport>,
    pub live: u32,
    pub trusted: u32,
    pub objects: u32,
    pub sum: u64,
    pub puts: u32,
}
