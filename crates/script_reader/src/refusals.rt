// Why a script is refused, and the faults of a line.
ghost use Rattle.std.specs.Prelude.{◌≡◌};
ghost use Rattle.script_reader.specs.declared.refusals.ScriptErr.TheVariants.{OutOfMemory};
ghost use Rattle.script_reader.specs.declared.refusals.OutOfMemory as memory;
ghost use Rattle.script_reader.specs.Forms.{order};
ghost use Rattle.script_reader.specs.Grammar.{refusal_at};

use std::alloc::{AllocError, AllocFailed};

/// Why a script was not read (`script_of` in `specs/Grammar.antt`): its first refused line, numbered from 1, with the
/// first of its faults, or want of memory.
#[derive(Clone, Copy, Debug, PartialEq, Eq)]
pub enum ScriptErr {
    /// No header, or one of another form or with another number.
    BadHeader,
    /// The line has no form, or it has no end of line, or it follows the end, or the end is missing.
    BadLine { line: u32 },
    /// A tag's place holds no tag.
    BadTag { line: u32 },
    /// A small number, an index word or a value is misspelled.
    BadNumber { line: u32 },
    /// A small number is out of its range.
    OutOfRange { line: u32 },
    /// A cycle starts in a cycle, or is finished outside one, or the script ends in one.
    BadMeet { line: u32 },
    /// One operation or one meet too many.
    TooMany { line: u32 },
    /// Want of memory.
    OutOfMemory,
}

impl From<AllocError> for ScriptErr {
    ghost from_gives = { λ _ e. e ≡ OutOfMemory };

    fn from(_: AllocError) -> Self {
        ScriptErr::OutOfMemory
    }
}

impl<T: Drop> From<AllocFailed<T>> for ScriptErr {
    ghost from_gives = { λ _ e. e ≡ OutOfMemory };

    fn from(_: AllocFailed<T>) -> Self {
        ScriptErr::OutOfMemory
    }
}

/// Want of memory, the one error of `print`.
#[derive(Clone, Copy, Debug, PartialEq, Eq)]
pub struct OutOfMemory;

impl From<AllocError> for OutOfMemory {
    fn from(_: AllocError) -> Self {
        OutOfMemory
    }
}

/// A fault of a line, in the order in which they are tested.
#[derive(Clone, Copy, Debug, PartialEq, Eq)]
pub enum Fault {
    BadLine,
    BadTag,
    BadNumber,
    OutOfRange,
    BadMeet,
    TooMany,
}

impl Fault {
    /// The place of the fault among the tests (`order`), from 1 to 6.
    pub fn order(self) -> u8
        ensures { result ≡ order self }
    {
        match self {
            Fault::BadLine => 1,
            Fault::BadTag => 2,
            Fault::BadNumber => 3,
            Fault::OutOfRange => 4,
            Fault::BadMeet => 5,
            Fault::TooMany => 6,
        }
    }

    /// The refusal of a line with this fault (`refusal_at`).
    pub fn at(self, line: u32) -> ScriptErr
        ensures { result ≡ refusal_at line self }
    {
        match self {
            Fault::BadLine => ScriptErr::BadLine { line },
            Fault::BadTag => ScriptErr::BadTag { line },
            Fault::BadNumber => ScriptErr::BadNumber { line },
            Fault::OutOfRange => ScriptErr::OutOfRange { line },
            Fault::BadMeet => ScriptErr::BadMeet { line },
            Fault::TooMany => ScriptErr::TooMany { line },
        }
    }
}
