//! Sources and sinks of bytes with counts of faults, and calls that read or write a whole text.
//!
//! A `Source` gives its bytes in order and a `Sink` takes them in order; each fails only where its
//! count of faults rose, and a failed call moves no byte (`traits.rt`). `memory.rt` has both over
//! memory, with short pieces and planned faults, exact to the byte. `adapters.rt` has both over
//! std's readers and writers, exact where these tell their bytes. `transfer.rt` has `read_script`
//! and `write_all`. The words of the contracts stand in `specs/`: `Faults`, `Bytes`, `Calls`,
//! `Memory` and `Streams`.
#![tactic(auto)]

mod adapters;
#[cfg(test)]
mod asserts;
mod faults;
mod memory;
#[cfg(test)]
mod stream_tests;
#[cfg(test)]
mod tests;
mod traits;
mod transfer;

pub use adapters::{ReadSource, WriteSink};
pub use faults::{Failed, OutOfMemory};
pub use memory::{MemorySink, MemorySource};
pub use traits::{Sink, Source};
pub use transfer::{ReadErr, read_script, write_all};
