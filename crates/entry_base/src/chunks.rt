// Chunks: objects that one session hands over to another.
ghost use Rattle.std.specs.Prelude.{◌≡◌, []};

use crate::view::View;
use atomic_table::Seat;

/// A seat that has hands and no number, and makes no call: the scans of its objects are handed over with it.
#[derive(Drop)]
pub struct Chunk {
    pub(crate) seat: Seat<(), View>,
    /// The objects, which are all of its hands.
    pub objects: Vec<u32>,
    ghost bare: { seat.me.1 ≡ [] },
    ghost whole: { seat.me.0.hands ≡ objects.items },
}
