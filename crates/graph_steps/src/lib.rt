//! A mutator's calls on objects of an open table: new, drop, link and fetch, of references and globals; and the shading of an object.
//!
//! Each call makes the steps of `object_rule` and `mark_rule` that are its shape, and says by `Made` of `call_base` that the events
//! of its session are this shape with its reply. `objects.rt` makes, drops and shades objects; `references.rt` links and fetches
//! references, and a link shades its target first in a cycle; `globals.rt` links and fetches globals. What variables hold after a
//! call, and what a link names, stands in `specs/Graph.antt`.
#![tactic(auto)]

mod globals;
mod objects;
mod references;

pub use globals::{fetch_global, link_global};
pub use objects::{drop_var, new_object, shade};
pub use references::{Linked, fetch, link};
