use std::collections::LinkedList;

/// One store of a pair: the entry, the sequence and the two numbers.
pub struct Store {
    pub at: u32,
    pub seq: u64,
    pub code: u64,
    pub entry: u64,
}

/// What a seat knows. No value of it is made.
pub struct View {
    /// Its parts of the 16 that all seats have together. A seat that was joined has none.
    pub parts: u32,
    /// The sequence of each opening pair, which is even.
    pub start: u64,
    /// For each entry, the pairs that were seen: a beginning of the entry's list.
    pub seen: LinkedList<LinkedList<(u64, u64)>>,
    /// The stores of its own and of the seats that were joined into it.
    pub own: LinkedList<Store>,
    /// For each entry, the sequences that its loads and exchanges of the sequence showed, in order.
    pub shown: LinkedList<LinkedList<u64>>,
    /// For each entry, the sequences that were shown before a split to the seats that it was split
    /// from, and joined with later.
    pub earlier: LinkedList<LinkedList<u64>>,
    /// For each entry, the shorter one of the two lists that were put together last.
    pub common: LinkedList<LinkedList<(u64, u64)>>,
    /// The entry at which it stepped last, the sequence that it found or stored there, and the two
    /// numbers that stood there then.
    pub at: u32,
    pub first: u64,
    pub code: u64,
    pub entry: u64,
    /// Whether it holds the claim of that entry.
    pub holds: bool,
}
