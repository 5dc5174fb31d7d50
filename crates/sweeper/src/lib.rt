//! The sweeper: the start of a collection cycle, what is still to be marked at its end, and its finish, on an image.
//!
//! `begin` (`begins.rt`, `usage.rt`, `roots.rt`), `late_mark` (`late.rt`, `marking.rt`, `shading.rt`, `evacuation.rt`) and
//! `sweep` (`images.rt`, `sweeps.rt`, `moves.rt`, `pass.rt`) each leave an image that shows the table after the start, the
//! pause and the finish, for every sound table that the image showed; `specs/Begin.antt`, `specs/Late.antt` and
//! `specs/Images.antt` say so. `shade` of `shading.rt` also stands alone, and `owed_objects_leave_room` says that its list
//! has room. `area.rt` has what a cycle keeps from its start to its finish.
#![tactic(auto)]

mod area;
mod begins;
mod evacuation;
mod images;
mod lanes;
mod late;
mod marking;
mod marks;
mod moves;
mod pass;
mod roots;
mod shading;
mod sweeps;
mod usage;

pub use area::Area;
pub use begins::begin;
pub use images::sweep;
pub use lanes::{cell_mask, clear_marks, evac_mask, mark_mask};
pub use late::{late_mark, owed_objects_leave_room};
pub use shading::shade;
