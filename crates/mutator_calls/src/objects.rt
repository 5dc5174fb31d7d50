// The calls of objects: they are made and let go, and come into variables, references and globals.
ghost use Rattle.std.specs.Prelude.{◌≡◌, ◌<◌, ◌≤◌, IfSome, length, slice_index, slice_set};
ghost use Rattle.plain_table.specs.declared.scripts.Op.TheVariants as op;
ghost use Rattle.mutator_calls.specs.Calls.{IsReady, MakesEach};
ghost use Rattle.mutator_calls.specs.Objects.{IsShadedIn, IsTarget, Rewrites, object_reply};

use crate::heap::Mutator;
use crate::places::{COUNT, global_place, reference_place};
use plain_table::Reply;
use sweeper::shade;

impl Mutator {
    /// Makes an object, which the variable comes to hold. It is heap full where the table has its most objects.
    pub fn new_object(&mut self, var: u32) -> Reply
        requires ready { IsReady self.old }
        requires variable { var < 16 }
        ensures ready { IsReady self.new }
        ensures makes { MakesEach self.old self.new (op.New var) result }
        ensures shape { self.new.image.shape ≡ self.old.image.shape }
    {
        let count = self.image.words[COUNT];
        if count == u64::from(self.image.shape.objects) {
            return Reply::HeapFull;
        }
        let object = count as u32;
        self.write(COUNT, count + 1);
        self.hold(var, object + 1);
        Reply::Obj(object)
    }

    /// Lets go of what the variable holds.
    pub fn drop_var(&mut self, var: u32) -> Reply
        requires ready { IsReady self.old }
        requires variable { var < 16 }
        ensures ready { IsReady self.new }
        ensures makes { MakesEach self.old self.new (op.Drop var) result }
        ensures shape { self.new.image.shape ≡ self.old.image.shape }
    {
        self.hold(var, 0);
        Reply::Ok
    }

    /// What reference `k` of the variable's object holds comes into another variable.
    pub fn fetch(&mut self, into: u32, var: u32, k: u32) -> Reply
        requires ready { IsReady self.old }
        requires place { (into < 16) × (var < 16) × (k < 4) }
        ensures ready { IsReady self.new }
        ensures makes { MakesEach self.old self.new (op.Fetch into var k) result }
        ensures shape { self.new.image.shape ≡ self.old.image.shape }
    {
        let Some(object) = self.held(var) else {
            return Reply::Empty;
        };
        self.hold_word(into, reference_place(object, k))
    }

    /// What a global holds comes into a variable.
    pub fn fetch_global(&mut self, into: u32, g: u32) -> Reply
        requires ready { IsReady self.old }
        requires place { (into < 16) × (g < 16) }
        ensures ready { IsReady self.new }
        ensures makes { MakesEach self.old self.new (op.GetG into g) result }
        ensures shape { self.new.image.shape ≡ self.old.image.shape }
    {
        self.hold_word(into, global_place(g))
    }

    /// Reference `k` of the variable's object comes to hold the target variable's object, or nothing. In a cycle that
    /// object is shaded first.
    pub fn link(&mut self, var: u32, k: u32, target: Option<u32>) -> Reply
        requires ready { IsReady self.old }
        requires place { (var < 16) × (k < 4) }
        requires target { IfSome target (λ v. v < 16) }
        ensures ready { IsReady self.new }
        ensures makes { MakesEach self.old self.new (op.Link var k target) result }
        ensures shape { self.new.image.shape ≡ self.old.image.shape }
    {
        let Some(object) = self.held(var) else {
            return Reply::Empty;
        };
        let Some(word) = self.target(target) else {
            return Reply::Empty;
        };
        self.shade_object(word);
        self.write(reference_place(object, k), word);
        Reply::Ok
    }

    /// A global comes to hold the target variable's object, or nothing.
    pub fn link_global(&mut self, g: u32, target: Option<u32>) -> Reply
        requires ready { IsReady self.old }
        requires place { g < 16 }
        requires target { IfSome target (λ v. v < 16) }
        ensures ready { IsReady self.new }
        ensures makes { MakesEach self.old self.new (op.SetG g target) result }
        ensures shape { self.new.image.shape ≡ self.old.image.shape }
    {
        let Some(word) = self.target(target) else {
            return Reply::Empty;
        };
        self.write(global_place(g), word);
        Reply::Ok
    }

    /// The word of the object to link, 0 for none; None where the variable holds nothing.
    fn target(&self, target: Option<u32>) -> Option<u64>
        requires ready { IsReady self.now }
        requires target { IfSome target (λ v. v < 16) }
        ensures { IsTarget self.now target result }
    {
        match target {
            None => Some(0),
            Some(var) => Some(u64::from(self.held(var)?) + 1),
        }
    }

    /// Writes one word of the table.
    fn write(&mut self, place: usize, word: u64)
        requires { place < length self.old.image.words.items }
        ensures { Rewrites self.old self.new (slice_set self.old.image.words.items place word) self.old.image.vars.items }
    {
        self.image.words[place] = word;
    }

    /// Writes one variable: 0 for nothing, and else the object's number plus 1.
    fn hold(&mut self, var: u32, word: u32)
        requires { var < length self.old.image.vars.items }
        ensures { Rewrites self.old self.new self.old.image.words.items (slice_set self.old.image.vars.items var word) }
    {
        self.image.vars[var as usize] = word;
    }

    /// The object of the word at a place comes into a variable.
    fn hold_word(&mut self, into: u32, place: usize) -> Reply
        requires variable { into < length self.old.image.vars.items }
        requires place { place < length self.old.image.words.items }
        requires few { slice_index self.old.image.words.items place ≤ 16384 }
        ensures held { Rewrites self.old self.new self.old.image.words.items
            (slice_set self.old.image.vars.items into (slice_index self.old.image.words.items place)) }
        ensures said { result ≡ object_reply (slice_index self.old.image.words.items place) }
    {
        let word = self.image.words[place] as u32;
        self.hold(into, word);
        if word == 0 {
            Reply::Nothing
        } else {
            Reply::Obj(word - 1)
        }
    }

    /// In a cycle the object of a word is shaded where it is white, and is listed then.
    fn shade_object(&mut self, word: u64)
        requires ready { IsReady self.old }
        requires object { word ≤ self.old.image.shape.objects }
        ensures { IsShadedIn self.old self.new word }
    {
        if self.in_cycle() {
            self.owed = shade(&mut self.image.words, &mut self.list, self.owed, word);
        }
    }
}
