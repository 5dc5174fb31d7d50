// The calls by external field `f`, below 2, of the object that a variable, below 16, holds.
ghost use Rattle.std.specs.Prelude.{◌≡◌, ◌≢◌, ◌↔◌, ℕ, ◌^◌, ◌<◌, IfSome, None, Some};
ghost use Rattle.plain_table.specs.declared.events.Field.TheVariants as field;
ghost use Rattle.plain_table.specs.declared.events.Space.TheVariants.{External};
ghost use Rattle.plain_table.specs.declared.reports.Reply.TheVariants as reply;
ghost use Rattle.plain_table.specs.declared.scripts.Op.TheVariants as op;
ghost use Rattle.plain_table.specs.Places.{object_of};
ghost use Rattle.entry_base.specs.Owns.{IsHeld};
ghost use Rattle.entry_base.specs.Sessions.{view, held_in, IsOf};
ghost use Rattle.call_base.specs.Called.{LeavesOwn, Made};
ghost use Rattle.access_steps.specs.Accesses.{field_number, IsLookAtEvent, IsStoreAtEvent, IsSwapAtEvent, IsWordAtEvent};

use crate::looks::{look, reply_of};
use crate::words::{store_at, swap_at};
use entry_base::{Session, Shared};
use object_rule::{forge_step, name_external};
use plain_table::{Reply, Space};
use tag_set::Range;

/// The number of external field `f` of the object that a variable holds (`field_number` of `specs/Accesses.antt`).
pub(crate) fn field_number(shared: &Shared, s: &Session, var: u32, f: u32) -> Option<u32>
    requires caller { IsOf shared.now s.now }
    requires range { (var < 16) × (f < 2) }
    ensures number { result ≡ field_number (view s.now) var f }
    ensures held { IfSome result (λ number. IsHeld (view s.now) (object_of (field.External number))) }
{
    match s.held(var) {
        None => None,
        Some(object) => Some(2 * object + f),
    }
}

/// The word of external field `f` of the object that a variable holds, or Empty exactly where the variable holds nothing.
pub fn name(shared: &Shared, s: &mut Session, var: u32, f: u32) -> Reply
    requires caller { IsOf shared.now s.old }
    requires range { (var < 16) × (f < 2) }
    ensures caller { IsOf shared.now s.new }
    ensures made { Made (view s.old) (op.Name var f) result (view s.new) }
    ensures answer { (number : ℕ) → field_number (view s.old) var f ≡ Some number → IsWordAtEvent (view s.new) number result }
    ensures leaves { LeavesOwn (view s.old) (view s.new) }
    ensures empty { (result ≡ reply.Empty) ↔ (held_in (view s.old) var ≡ None) }
{
    match field_number(shared, s, var, f) {
        None => Reply::Empty,
        Some(number) => Reply::Word(name_external(shared, s, number) as u32),
    }
}

/// Writes any word into external field `f` of the object that a variable holds, which then names no cell as its own: Ok, or Empty
/// exactly where the variable holds nothing.
pub fn forge(shared: &Shared, s: &mut Session, var: u32, f: u32, word: u32) -> Reply
    requires caller { IsOf shared.now s.old }
    requires range { (var < 16) × (f < 2) }
    ensures caller { IsOf shared.now s.new }
    ensures made { Made (view s.old) (op.Forge var f word) result (view s.new) }
    ensures ok { (result ≢ reply.Empty) → result ≡ reply.Ok }
    ensures leaves { LeavesOwn (view s.old) (view s.new) }
    ensures empty { (result ≡ reply.Empty) ↔ (held_in (view s.old) var ≡ None) }
{
    match field_number(shared, s, var, f) {
        None => Reply::Empty,
        Some(number) => {
            forge_step(shared, s, number, word);
            Reply::Ok
        }
    }
}

/// Loads by external field `f` of the object that a variable holds: what a look at the field's word answers under a range of tags,
/// a value, Null or a fault; or Empty exactly where the variable holds nothing.
pub fn load(shared: &Shared, s: &mut Session, var: u32, f: u32, range: Range) -> Reply
    requires caller { IsOf shared.now s.old }
    requires range { (var < 16) × (f < 2) }
    ensures caller { IsOf shared.now s.new }
    ensures made { Made (view s.old) (op.Load var f range.first range.last) result (view s.new) }
    ensures answer { (result ≢ reply.Empty) → (word : ℕ) × IsLookAtEvent (view s.new) External word range.first range.last result }
    ensures leaves { LeavesOwn (view s.old) (view s.new) }
    ensures empty { (result ≡ reply.Empty) ↔ (held_in (view s.old) var ≡ None) }
{
    match field_number(shared, s, var, f) {
        None => Reply::Empty,
        Some(number) => {
            let word = name_external(shared, s, number) as u32;
            reply_of(look(shared, s, Space::External, word, range))
        }
    }
}

/// Stores a value below 2^48 by external field `f` of the object that a variable holds, where a look at the field's word finds a
/// value under a range of tags, and else answers as the look does; or Empty exactly where the variable holds nothing. The cell
/// keeps its tag.
pub fn store(shared: &Shared, s: &mut Session, var: u32, f: u32, range: Range, value: u64) -> Reply
    requires caller { IsOf shared.now s.old }
    requires range { (var < 16) × (f < 2) }
    requires small { value < 2 ^ 48 }
    ensures caller { IsOf shared.now s.new }
    ensures made { Made (view s.old) (op.Store var f range.first range.last value) result (view s.new) }
    ensures answer { (result ≢ reply.Empty) → (word : ℕ) × IsStoreAtEvent (view s.new) word range.first range.last result }
    ensures leaves { LeavesOwn (view s.old) (view s.new) }
    ensures empty { (result ≡ reply.Empty) ↔ (held_in (view s.old) var ≡ None) }
{
    match field_number(shared, s, var, f) {
        None => Reply::Empty,
        Some(number) => {
            let word = name_external(shared, s, number) as u32;
            store_at(shared, s, word, range, value)
        }
    }
}

/// Exchanges the value of a cell as `store` stores one, and answers the value that stood there.
pub fn swap(shared: &Shared, s: &mut Session, var: u32, f: u32, range: Range, value: u64) -> Reply
    requires caller { IsOf shared.now s.old }
    requires range { (var < 16) × (f < 2) }
    requires small { value < 2 ^ 48 }
    ensures caller { IsOf shared.now s.new }
    ensures made { Made (view s.old) (op.Swap var f range.first range.last value) result (view s.new) }
    ensures answer { (result ≢ reply.Empty) → (word : ℕ) × IsSwapAtEvent (view s.new) word range.first range.last result }
    ensures leaves { LeavesOwn (view s.old) (view s.new) }
    ensures empty { (result ≡ reply.Empty) ↔ (held_in (view s.old) var ≡ None) }
{
    match field_number(shared, s, var, f) {
        None => Reply::Empty,
        Some(number) => {
            let word = name_external(shared, s, number) as u32;
            swap_at(shared, s, word, range, value)
        }
    }
}
