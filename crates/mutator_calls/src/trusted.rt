// The calls of trusted fields and of words of the trusted space.
ghost use Rattle.std.specs.Prelude.{◌≡◌, ℕ, ◌^◌, ◌<◌, length, slice_index};
ghost use Rattle.mutator_calls.specs.Marks.{marked_in_cycle, with_mark};

use crate::entries::look;
use crate::freelists::take;
use crate::heap::Mutator;
use crate::inits::{bind, put};
use crate::places::{PHASE, first_entry, trusted_place};
use entry_word::{Entry, Pending, encode, index_of};
use plain_table::{Reply, Space};
use tag_set::{Range, Tag};

/// The marking bit of an entry.
const MARK: u64 = 1 << 62;

impl Mutator {
    ghost use Rattle.plain_table.specs.declared.events.Field.TheVariants as field;
    ghost use Rattle.plain_table.specs.declared.scripts.Op.TheVariants as op;
    ghost use Rattle.plain_table.specs.declared.events.Space.TheVariants.{Trusted};
    ghost use Rattle.plain_table.specs.Table.{Table};
    ghost use Rattle.entry_word.specs.Image.{image_of, sizes_of};
    ghost use Rattle.mutator_calls.specs.Calls.{IsReady, MakesEach, Sees};
    ghost use Rattle.mutator_calls.specs.Words.{LooksAt};

    /// What a look at any word of the trusted space answers, under a range of tags.
    pub fn traw(&self, word: u32, range: Range) -> Reply
        requires ready { IsReady self.now }
        ensures makes { MakesEach self.now self.now (op.TRaw word range.first range.last) result }
    {
        self.look_trusted(word, range)
    }

    /// What a look at the word of the trusted field answers, under a range of tags; empty where the variable holds nothing.
    pub fn tload(&self, var: u32, range: Range) -> Reply
        requires ready { IsReady self.now }
        requires place { var < 16 }
        ensures makes { MakesEach self.now self.now (op.TLoad var range.first range.last) result }
    {
        match self.held(var) {
            None => Reply::Empty,
            Some(object) => self.look_trusted(self.trusted_word(object), range),
        }
    }

    /// What a look at a word of the trusted space answers.
    fn look_trusted(&self, word: u32, range: Range) -> Reply
        requires ready { IsReady self.now }
        ensures { LooksAt self.now.image.words.items (sizes_of self.now.image.shape) Trusted word range.first range.last result }
    {
        look(
            &self.image.words,
            self.image.shape,
            Space::Trusted,
            word,
            range,
        )
    }

    /// The index word in the trusted field of an object.
    fn trusted_word(&self, object: u32) -> u32
        requires ready { IsReady self.now }
        requires object { (object < self.now.image.shape.objects) × (object < 16384) }
        ensures { (s : Table) → Sees (image_of self.now.image) s → result ≡ s.words (field.Trusted object) }
    {
        self.field_word(trusted_place(object))
    }

    /// Takes a trusted index, fills it with an entry that cannot be seen yet, and binds the trusted field of a variable's object to
    /// it. The entry is the mutator's to publish then; it has at most one.
    pub fn tnew(&mut self, var: u32, tag: Tag, value: u64) -> Reply
        requires ready { IsReady self.old }
        requires place { var < 16 }
        requires small { value < 2 ^ 48 }
        ensures ready { IsReady self.new }
        ensures makes { MakesEach self.old self.new (op.TNew var tag value) result }
        ensures shape { self.new.image.shape ≡ self.old.image.shape }
    {
        let Some(object) = self.held(var) else {
            return Reply::Empty;
        };
        if self.image.pending[0].is_some() {
            return Reply::Pending;
        }
        let shape = self.image.shape;
        let Some(index) = take(&mut self.image.words, shape, Space::Trusted) else {
            return Reply::Full;
        };
        put(
            &mut self.image.words,
            shape,
            Space::Trusted,
            index,
            tag,
            value,
        );
        match bind(&mut self.image.words, trusted_place(object), index) {
            Reply::Ok => {
                let tag = tag.byte();
                self.image.pending[0] = Some(Pending { index, tag, value });
                Reply::Ok
            }
            taken => taken,
        }
    }

    /// Publishes the entry that the trusted field of a variable's object names, where it is the mutator's to publish.
    pub fn publish(&mut self, var: u32) -> Reply
        requires ready { IsReady self.old }
        requires place { var < 16 }
        ensures ready { IsReady self.new }
        ensures makes { MakesEach self.old self.new (op.TPub var) result }
        ensures shape { self.new.image.shape ≡ self.old.image.shape }
    {
        let Some(object) = self.held(var) else {
            return Reply::Empty;
        };
        let index = index_of(self.trusted_word(object));
        match self.image.pending[0] {
            Some(pending) if pending.index == index => {
                let place = first_entry(self.image.shape, Space::Trusted) + index as usize;
                self.image.words[place] = encode(&Entry::Regular {
                    tag: pending.tag,
                    value: pending.value,
                    marked: true,
                });
                self.image.pending[0] = None;
                Reply::Ok
            }
            _ => Reply::NotYours,
        }
    }

    /// Binds the trusted field of an object to the entry that another one's names. In a cycle the entry is marked first.
    pub fn share(&mut self, from: u32, to: u32) -> Reply
        requires ready { IsReady self.old }
        requires place { (from < 16) × (to < 16) }
        ensures ready { IsReady self.new }
        ensures makes { MakesEach self.old self.new (op.Share from to) result }
        ensures shape { self.new.image.shape ≡ self.old.image.shape }
    {
        let Some(source) = self.held(from) else {
            return Reply::Empty;
        };
        let Some(target) = self.held(to) else {
            return Reply::Empty;
        };
        let word = self.trusted_word(source);
        if word == 0 {
            return Reply::Null;
        }
        let found = self.trusted_word(target);
        let entry = first_entry(self.image.shape, Space::Trusted) + index_of(word) as usize;
        mark_in_cycle(&mut self.image.words, entry);
        if found != 0 {
            return Reply::Taken(found);
        }
        self.image.words[trusted_place(target)] = u64::from(word);
        Reply::Ok
    }
}

/// In a cycle sets the marking bit of the entry at a place.
fn mark_in_cycle(words: &mut [u64], place: usize)
    requires { (4 < length words.old) × (place < length words.old) }
    ensures { words.new ≡ marked_in_cycle words.old place }
{
    if words[PHASE] == 1 {
        words[place] = with_mark(words[place]);
    }
}

/// A word of a cell with its marking bit.
fn with_mark(word: u64) -> u64
    ensures { result ≡ with_mark word }
{
    if word < MARK { word + MARK } else { word }
}
