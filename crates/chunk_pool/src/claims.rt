// What a thief has claimed. No value of this type is made: contracts alone speak of it.
use entry_base::Chunk;
use std::collections::LinkedList;

/// What a thief of a pool has claimed.
pub struct Claims {
    /// The chunks that the pool was made with. The number of a chunk is its place among them, from 0.
    pub given: LinkedList<Chunk>,
    /// How many thieves were made with the pool, from 1 to 4.
    pub thieves: u32,
    /// How many of these it is: itself and those joined into it.
    pub joined: u32,
    /// The numbers of the chunks that it took, or one joined into it.
    pub taken: LinkedList<u64>,
    /// No claim that it makes from now on gives a number below this one.
    pub next: u64,
    /// It has seen the end, or one joined into it has: a claim gave the number of chunks or more, so every chunk was claimed.
    pub ended: bool,
}
