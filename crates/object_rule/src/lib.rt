//! Steps on the objects, references, globals and fields of an open table, each by one session, one history.
//!
//! Each step keeps the rule of `entry_base`, adds its event with its reply to the history that its session has seen, and tells
//! the session what it may rely on from then on. `objects.rt` makes objects, drops and gets what variables hold, and links
//! references and globals; `fields.rt` names, binds and forges the words of fields. What each step tells stands in `specs/`, in
//! the file of the same name.
#![tactic(auto)]

mod fields;
mod objects;

pub use fields::{
    bind_external, bind_shared, bind_trusted, forge_step, name_external, name_trusted,
};
pub use objects::{
    drop_step, get_global, get_reference, link_global, link_reference, load_count,
    load_count_for_new, new_step,
};
