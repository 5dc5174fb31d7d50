// What a take answers.
ghost use Rattle.std.specs.Prelude.{◌≡◌};

use plain_table::Space;

/// A taken index that its holder has not filled. A mutator's right to publish a trusted cell is another thing. In clauses it is
/// the number, the space and the index of its claim (`IsTicketOf` of `specs/Tickets.antt`).
#[derive(Drop)]
pub struct Ticket {
    pub(crate) number: u32,
    pub(crate) space: Space,
    pub(crate) index: u32,
}

impl Ticket {
    /// The index that was taken, from 1 on and below the limit of its space.
    pub fn index(&self) -> u32
        ensures { result ≡ self.now.index }
    {
        self.index
    }
}

/// What a take got.
#[derive(Drop)]
pub enum Taken {
    /// The least free index, which the caller has to fill.
    At(Ticket),
    /// No index was free, and no segment is left.
    Full,
    /// No index below the area was free.
    NoRoom,
}
