// The calls by external fields and by words of the external space: names, loads, stores, exchanges and forged fields.
ghost use Rattle.std.specs.Prelude.{◌≡◌, ◌*◌, ◌^◌, ◌<◌, slice_index};
ghost use Rattle.plain_table.specs.declared.scripts.Op.TheVariants as op;
ghost use Rattle.plain_table.specs.Table.{Table};
ghost use Rattle.plain_table.specs.Shapes.{external_field};
ghost use Rattle.plain_table.specs.declared.events.Space.TheVariants.{External};
ghost use Rattle.entry_word.specs.Image.{image_of, sizes_of};
ghost use Rattle.mutator_calls.specs.Calls.{IsReady, MakesEach, Sees};
ghost use Rattle.mutator_calls.specs.Exchanges.{Exchanges};
ghost use Rattle.mutator_calls.specs.Fields.{IsFieldOf};
ghost use Rattle.mutator_calls.specs.Words.{LooksAt};

use crate::Mutator;
use crate::entries::{exchange, look, stored};
use crate::places::external_place;
use plain_table::{Reply, Space};
use tag_set::Range;

impl Mutator {
    /// The index word in external field `f` of the variable's object; empty where the variable holds nothing.
    pub fn name(&self, var: u32, f: u32) -> Reply
        requires ready { IsReady self.now }
        requires place { (var < 16) × (f < 2) }
        ensures makes { MakesEach self.now self.now (op.Name var f) result }
    {
        match self.held(var) {
            None => Reply::Empty,
            Some(object) => Reply::Word(self.external_word(object, f)),
        }
    }

    /// What a look at the word of external field `f` answers, under a range of tags; empty where the variable holds nothing.
    pub fn load(&self, var: u32, f: u32, range: Range) -> Reply
        requires ready { IsReady self.now }
        requires place { (var < 16) × (f < 2) }
        ensures makes { MakesEach self.now self.now (op.Load var f range.first range.last) result }
    {
        match self.held(var) {
            None => Reply::Empty,
            Some(object) => self.look_external(self.external_word(object, f), range),
        }
    }

    /// What a look at any word of the external space answers, under a range of tags.
    pub fn raw_load(&self, word: u32, range: Range) -> Reply
        requires ready { IsReady self.now }
        ensures makes { MakesEach self.now self.now (op.Raw word range.first range.last) result }
    {
        self.look_external(word, range)
    }

    /// Writes any word into external field `f` of the variable's object, which names no cell as its own then; empty where the
    /// variable holds nothing.
    pub fn forge(&mut self, var: u32, f: u32, word: u32) -> Reply
        requires ready { IsReady self.old }
        requires place { (var < 16) × (f < 2) }
        ensures ready { IsReady self.new }
        ensures makes { MakesEach self.old self.new (op.Forge var f word) result }
        ensures shape { self.new.image.shape ≡ self.old.image.shape }
    {
        match self.held(var) {
            None => Reply::Empty,
            Some(object) => {
                self.image.words[external_place(object, f)] = u64::from(word);
                Reply::Ok
            }
        }
    }

    /// Stores a value where a look at the word of external field `f` finds one under a range of tags, and else answers as the
    /// look does; empty where the variable holds nothing. The cell keeps its tag.
    pub fn store(&mut self, var: u32, f: u32, range: Range, value: u64) -> Reply
        requires ready { IsReady self.old }
        requires place { (var < 16) × (f < 2) }
        requires small { value < 2 ^ 48 }
        ensures ready { IsReady self.new }
        ensures makes { MakesEach self.old self.new (op.Store var f range.first range.last value) result }
        ensures shape { self.new.image.shape ≡ self.old.image.shape }
    {
        match self.held(var) {
            None => Reply::Empty,
            Some(object) => {
                let word = self.external_word(object, f);
                stored(self.exchange(word, range, value))
            }
        }
    }

    /// Stores a value as `store` does, and answers the one that stood there.
    pub fn swap(&mut self, var: u32, f: u32, range: Range, value: u64) -> Reply
        requires ready { IsReady self.old }
        requires place { (var < 16) × (f < 2) }
        requires small { value < 2 ^ 48 }
        ensures ready { IsReady self.new }
        ensures makes { MakesEach self.old self.new (op.Swap var f range.first range.last value) result }
        ensures shape { self.new.image.shape ≡ self.old.image.shape }
    {
        match self.held(var) {
            None => Reply::Empty,
            Some(object) => {
                let word = self.external_word(object, f);
                self.exchange(word, range, value)
            }
        }
    }

    /// Stores a value where a look at any word of the external space finds one under a range of tags, and else answers as the
    /// look does.
    pub fn raw_store(&mut self, word: u32, range: Range, value: u64) -> Reply
        requires ready { IsReady self.old }
        requires small { value < 2 ^ 48 }
        ensures ready { IsReady self.new }
        ensures makes { MakesEach self.old self.new (op.RawSet word range.first range.last value) result }
        ensures shape { self.new.image.shape ≡ self.old.image.shape }
    {
        stored(self.exchange(word, range, value))
    }

    /// Looks at the entry that a word of the external space names, and writes another value where one was found there; answers
    /// what was found.
    fn exchange(&mut self, word: u32, range: Range, value: u64) -> Reply
        requires ready { IsReady self.old }
        requires small { value < 2 ^ 48 }
        ensures ready { IsReady self.new }
        ensures tables { (s : Table) → Sees (image_of self.old.image) s → Exchanges self.old self.new s word range.first range.last value result }
        ensures shape { self.new.image.shape ≡ self.old.image.shape }
    {
        exchange(&mut self.image.words, self.image.shape, word, range, value)
    }

    /// The index word in the field at a place.
    pub(crate) fn field_word(&self, place: usize) -> u32
        requires ready { IsReady self.now }
        requires field { IsFieldOf self.now.image.shape place }
        ensures { result ≡ slice_index self.now.image.words.items place }
    {
        self.image.words[place] as u32
    }

    /// The index word in external field `f` of an object.
    fn external_word(&self, object: u32, f: u32) -> u32
        requires ready { IsReady self.now }
        requires object { (object < self.now.image.shape.objects) × (object < 16384) }
        requires field { f < 2 }
        ensures { (s : Table) → Sees (image_of self.now.image) s → result ≡ s.words (external_field object f) }
    {
        self.field_word(external_place(object, f))
    }

    /// What a look at a word of the external space answers.
    fn look_external(&self, word: u32, range: Range) -> Reply
        requires ready { IsReady self.now }
        ensures { LooksAt self.now.image.words.items (sizes_of self.now.image.shape) External word range.first range.last result }
    {
        look(
            &self.image.words,
            self.image.shape,
            Space::External,
            word,
            range,
        )
    }
}
