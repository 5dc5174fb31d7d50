//! The generated script of a seed, and the word of a command line that spells a seed.
//!
//! `generate` gives the script that `generated` of `specs/Generated.antt` names, a valid one of 22,816 operations; want
//! of memory is its only error (`generator.rt`). `seed_of` reads a seed exactly as `seed_of` of `specs/Seed.antt` says
//! (`seeds.rt`).
#![tactic(auto)]

mod generator;
mod seeds;

pub use generator::generate;
pub use seeds::seed_of;
