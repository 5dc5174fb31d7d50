//! A pool of chunks, each of which one of up to four thieves takes, on any threads and with no lock.
//!
//! A thief claims the next number by one fetch_add, and takes the chunk of that number out of its slot. Where all thieves of a
//! pool were joined into one that has seen the end, it took each chunk once.
//!
//! `pool.rt` has the pool and the thieves, `claims.rt` what a thief has claimed, `plays.rt` the rule as the kit's
//! `atomic_table` takes it, with the kinds of step, and `specs/` what clauses say: `Claims.antt` of a thief's claims,
//! `Thieves.antt` of a thief and its pool, and `Rule.antt` the rule.
#![tactic(auto)]

mod claims;
mod plays;
mod pool;

pub use claims::Claims;
pub use pool::{Pool, Thief};
