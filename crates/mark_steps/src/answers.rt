// What marks and evacuations answer.

/// What a mark found.
#[derive(Clone, Copy, Debug, PartialEq, Eq)]
pub enum Mark {
    /// A cell without a mark, which it set.
    Set,
    /// A marked cell.
    Already,
    /// No cell.
    NoCell,
}

/// What an evacuation did.
#[derive(Clone, Copy, Debug, PartialEq, Eq)]
pub enum Evacuated {
    /// The field has an evacuation entry at this index, below the area.
    Placed { index: u32 },
    /// No cell in the area stands at the word's index.
    NotNeeded,
    /// The compaction is aborted.
    Aborted,
}
