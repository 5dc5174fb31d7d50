//! The top call: it reads a script, and runs it or prints it in its canonical form; or it runs a generated one.
//!
//! What `run` writes is the report of an outcome that belongs to the script by one legal history of the plain table, for every
//! valid script, what `soak` writes is the line that sums up such an outcome of a generated one (`soak.rt`), and each other answer
//! has its cause in a clause of `run_main` (`top.rt`, `specs/Top.antt`). `answers.rt` has the forms of words and the statuses; scripts
//! are run on threads by `phase_run`.
#![tactic(auto)]

mod answers;
mod soak;
mod top;

pub use answers::Status;
pub use top::run_main;
