// The open table of a phase, from its opening to its end.
ghost use Rattle.std.specs.Prelude.{◌≡◌, ◌<◌, ◌≤◌};
ghost use Rattle.plain_table.specs.Words.{freelist_place, words_in_all};
ghost use Rattle.plain_table.specs.Table.{limit_in};
ghost use Rattle.plain_table.specs.declared.events.Space.TheVariants.{External, Trusted};
ghost use Rattle.entry_base.specs.Openings.{opening_of, sizes_in, IsOpenable};
ghost use Rattle.entry_base.specs.Tied.{HasRoom};

use crate::arrays::{array_of_pending, array_of_vars, copy_pending, copy_vars};
use crate::closing::close_table;
use crate::plays::OneHistory;
use crate::sessions::Session;
use crate::view::View;
use atomic_table::Table;
use entry_word::Image;
use plain_table::{OutOfMemory, Space};
use std::alloc::Global;

/// The place of the word that says whether a cycle is under way.
const PHASE: usize = 4;
/// The words before those of objects, and the words of an object.
const FIRST_WORDS: usize = 32;

const OBJECT_WORDS: usize = 8;

/// The open table of a phase, which threads share through a `&`. Its public fields are for the crates of steps.
#[derive(Drop)]
pub struct Shared {
    pub table: Table<(), View, Image, OneHistory, Global>,
    // The room for the image at the end.
    room: Image,
    /// The entries of a segment, the most objects, and how many indexes each space has.
    pub seg: u32,
    pub objects: u32,
    pub external: u32,
    pub trusted: u32,
    ghost sized: { table.shared.table_id.words ≡ words_in_all (sizes_in (opening_of table.shared.key)) },
    ghost no_slots: { table.shared.table_id.slots ≡ 0 },
    ghost roomy: { HasRoom room table.shared.table_id.words (opening_of table.shared.key) },
    ghost made: { (seg ≡ (sizes_in (opening_of table.shared.key)).seg) × (objects ≡ (sizes_in (opening_of table.shared.key)).objects) },
    ghost limits: { (external ≡ limit_in (sizes_in (opening_of table.shared.key)) External)
        × (trusted ≡ limit_in (sizes_in (opening_of table.shared.key)) Trusted) },
    // There is a table that the phase may have begun in.
    ghost openable: { ∥ IsOpenable (opening_of table.shared.key) ∥₁ },
    ghost few: { (external ≤ 65536) × (trusted ≤ 65536) × (objects ≤ 16384) },
}

impl Shared {
    ghost use Rattle.std.specs.Prelude.{ℕ, IfOk};
    ghost use Rattle.plain_table.specs.Words.{entry_place};
    ghost use Rattle.plain_table.specs.Shows.{IsLawful};
    ghost use Rattle.word_laws.specs.Small.{AreSmall};
    ghost use Rattle.entry_word.specs.Image.{image_of, sizes_of};
    ghost use Rattle.entry_base.specs.Callers.{IsClosed};
    ghost use Rattle.entry_base.specs.Hands.{grey, LeavesToScan};
    ghost use Rattle.entry_base.specs.Lists.{count_in};
    ghost use Rattle.entry_base.specs.Numbers.{HasNumber};
    ghost use Rattle.entry_base.specs.Openings.{start_of};
    ghost use Rattle.entry_base.specs.Sessions.{view, opened_with, IsOf};
    ghost use Rattle.entry_base.specs.Views.{first_view};

    /// Opens the table of a phase, in or outside a cycle, on an image as it is. `owed` lists, each once, the objects that are
    /// shaded and not scanned, and `area` is the start of the evacuation area. The first session has number 12, may give the
    /// numbers 0 to 11, and holds all variables, tickets and hands (`first_view` of `specs/Views.antt`). It refuses only where
    /// an allocation fails; the image is then dropped.
    pub fn start(
        alloc: Global,
        image: Image,
        owed: &[u32],
        area: Option<u32>,
    ) -> Result<(Shared, Session), OutOfMemory>
        requires small { AreSmall (sizes_of image.shape) }
        requires lawful { IsLawful (image_of image) }
        requires owed { (o : ℕ) → count_in o owed.now ≡ grey (sizes_in (opening_of image)) image.words.items o }
        requires area { area ≡ start_of (opening_of image) }
        ensures caller { IfOk result (λ t. IsOf t.0 t.1) }
        ensures opened { IfOk result (λ t. opened_with t.0 ≡ opening_of image) }
        ensures first { IfOk result (λ t. view t.1 ≡ first_view (opening_of image)) }

        // So its hands are the objects that were given.
        ensures hands { IfOk result (λ t. (o : ℕ) → count_in o (view t.1).hands ≡ count_in o owed.now) }
    {
        let _given = owed.len();
        let vars = array_of_vars(image.vars.as_slice());
        let pending = array_of_pending(image.pending.as_slice());
        let in_cycle = image.words[PHASE] == 1;
        let shape = image.shape;
        let Ok((table, seat)) = Table::of_words(alloc, image.words.as_slice(), &image) else {
            return Err(OutOfMemory);
        };
        let session = Session {
            seat,
            number: 12,
            numbers: [true; 13],
            vars,
            pending,
            in_cycle,
            area,
        };
        let shared = Shared {
            table,
            room: image,
            seg: shape.seg,
            objects: shape.objects,
            external: shape.seg * shape.ext,
            trusted: shape.seg * shape.tru,
        };
        Ok((shared, session))
    }

    /// Closes the table by a session that has all numbers. The image shows the table after the history that the session had
    /// seen, which is the whole history of the phase, and every entry of a segment that is not committed has no access. What is
    /// still to be scanned stood in the hands of the session or in a chunk (`LeavesToScan` of `specs/Hands.antt`).
    pub fn finish(self, session: Session) -> Image
        requires caller { IsOf self session }
        requires all { (n : ℕ) → n ≤ 12 → HasNumber (view session) n }
        ensures closed { IsClosed (view session).opening (view session).seen (opening_of result) }
        ensures left { LeavesToScan (view session) (opening_of result) }

        // So the image is lawful.
        ensures lawful { IsLawful (image_of result) }
    {
        let Shared {
            table,
            room,
            seg: _,
            objects: _,
            external: _,
            trusted: _,
        } = self;
        let Session {
            seat,
            number: _,
            numbers: _,
            vars,
            pending,
            in_cycle: _,
            area: _,
        } = session;
        let Image {
            shape,
            mut words,
            vars: mut last_vars,
            pending: mut last_pending,
        } = room;
        let closed = table.close_with(seat);
        for i in 0..words.len() {
            words[i] = closed.word(i);
        }
        closed.free();
        close_table(&shape, words.as_mut_slice());
        copy_vars(&vars, last_vars.as_mut_slice());
        copy_pending(&pending, last_pending.as_mut_slice());
        Image {
            shape,
            words,
            vars: last_vars,
            pending: last_pending,
        }
    }

    /// The number of indexes of a space, up to 65,536.
    pub fn limit(&self, space: Space) -> u32
        ensures limit { result ≡ limit_in (sizes_in (opened_with self.now)) space }
        ensures few { result ≤ 65536 }
    {
        match space {
            Space::External => self.external,
            Space::Trusted => self.trusted,
        }
    }

    /// The place of the entry at an index of a space, below its limit.
    pub fn entry_place(&self, space: Space, index: u32) -> usize
        requires { index < limit_in (sizes_in (opened_with self.now)) space }
        ensures place { result ≡ entry_place (sizes_in (opened_with self.now)) space index }
        ensures inside { result < self.now.table.shared.table_id.words }
    {
        let first = FIRST_WORDS + OBJECT_WORDS * self.objects as usize;
        match space {
            Space::External => first + index as usize,
            Space::Trusted => first + self.external as usize + index as usize,
        }
    }
}

/// The place of the freelist word of a space.
pub fn freelist_place(space: Space) -> usize
    ensures place { result ≡ freelist_place space }
    ensures low { result < 3 }
{
    match space {
        Space::External => 0,
        Space::Trusted => 2,
    }
}
