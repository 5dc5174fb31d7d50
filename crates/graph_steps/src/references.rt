// Calls that link and fetch references.
ghost use Rattle.std.specs.Prelude.{◌≡◌, ◌≢◌, ◌⊎◌, ◌↔◌, ◌+◌, ◌<◌, ◌≤◌, [], ◌∷◌, None, Some, IfSome, ℕ};
ghost use Rattle.std.specs.Option.{option_map_or};
ghost use Rattle.plain_table.specs.declared.scripts.Op.TheVariants as op;
ghost use Rattle.plain_table.specs.declared.events.Spot.TheVariants.{Ref};
ghost use Rattle.plain_table.specs.declared.reports.Reply.TheVariants as reply;
ghost use Rattle.entry_base.specs.declared.view.Fact.TheVariants as fact;
ghost use Rattle.entry_base.specs.Callers.{SameOwn};
ghost use Rattle.entry_base.specs.Lists.{Has};
ghost use Rattle.entry_base.specs.Openings.{phase_of};
ghost use Rattle.entry_base.specs.Owns.{IsHeld};
ghost use Rattle.entry_base.specs.Sessions.{view, IsOf, held_in};
ghost use Rattle.object_rule.specs.Objects.{IsTarget, IsClearTarget, got_reply};
ghost use Rattle.call_base.specs.Called.{Called, Made};
ghost use Rattle.graph_steps.specs.Graph.{HoldsReply, IsAtSpot, IsUnheld, target_in};

use crate::objects::shade;
use entry_base::{Session, Shared};
use object_rule::{get_reference, link_reference};
use plain_table::Reply;

/// What a link says: its reply, and the object that it brought into the session's hands, where it did.
#[derive(Clone, Copy)]
pub struct Linked {
    pub reply: Reply,
    pub shaded: Option<u32>,
}

/// The word of what a link names: 0 for none, and else the number of the object plus 1. None where the named variable holds nothing.
pub(crate) fn target_word(shared: &Shared, s: &Session, target: Option<u32>) -> Option<u32>
    requires caller { IsOf shared.now s.now }
    requires target { IfSome target (λ var. var < 16) }
    ensures word { IfSome result (IsTarget (view s.now) target) }
    ensures none { (result ≡ None) ↔ IsUnheld (view s.now) target }
{
    match target {
        None => Some(0),
        Some(var) => match s.held(var) {
            None => None,
            Some(object) => Some(object + 1),
        },
    }
}

/// The reply of a place's word: nothing for 0, and else the object with the number below it.
pub(crate) fn reply_of(word: u64) -> Reply
    requires { word ≤ 16384 }
    ensures { result ≡ got_reply word }
{
    if word == 0 {
        Reply::Nothing
    } else {
        Reply::Obj((word - 1) as u32)
    }
}

/// In a cycle, shades the object of a word, where it has one. The answer is that object where it was white.
fn shade_target(shared: &Shared, s: &mut Session, word: u32) -> Option<u32>
    requires caller { IsOf shared.now s.old }
    requires held { (q : ℕ) → word ≡ q + 1 → IsHeld (view s.old) q }
    ensures caller { IsOf shared.now s.new }
    ensures called { Called (view s.old) [] (view s.new) }
    ensures own { SameOwn (view s.old) (view s.new) }
    ensures hands { (view s.new).hands ≡ option_map_or (λ q. q ∷ (view s.old).hands) result (view s.old).hands }
    ensures object { IfSome result (λ q. (word ≡ q + 1) × (phase_of (view s.old).opening ≡ 1)) }
    ensures clear { IsClearTarget (view s.new) word }
{
    if s.in_cycle() && word != 0 && shade(shared, s, word - 1) {
        Some(word - 1)
    } else {
        None
    }
}

/// Links reference `k`, below 4, of the object of the variable `var` to the object of the variable `target`, or to nothing; variables
/// are below 16. The reply is empty exactly where a named variable holds nothing, and else ok. In a cycle it shades the target object
/// first. `shaded` is that object exactly where it was white at its step, and it then stands in the session's hands.
pub fn link(shared: &Shared, s: &mut Session, var: u32, k: u32, target: Option<u32>) -> Linked
    requires caller { IsOf shared.now s.old }
    requires variable { var < 16 }
    requires few { k < 4 }
    requires target { IfSome target (λ t. t < 16) }
    ensures caller { IsOf shared.now s.new }
    ensures made { Made (view s.old) (op.Link var k target) result.reply (view s.new) }
    ensures own { SameOwn (view s.old) (view s.new) }
    ensures hands { (view s.new).hands ≡ option_map_or (λ q. q ∷ (view s.old).hands) result.shaded (view s.old).hands }
    ensures empty { (result.reply ≡ reply.Empty) ↔ ((held_in (view s.old) var ≡ None) ⊎ IsUnheld (view s.old) target) }
    ensures kinds { (result.reply ≡ reply.Empty) ⊎ (result.reply ≡ reply.Ok) }

    // What comes into the hands is the target object, where the link was made in a cycle.
    ensures shaded { IfSome result.shaded (λ q. (result.reply ≡ reply.Ok) × (target_in (view s.old) target ≡ Some q) × (phase_of (view s.old).opening ≡ 1)) }

    // So what is linked in a cycle is shaded, whether it was white or not.
    ensures covered { result.reply ≡ reply.Ok → phase_of (view s.old).opening ≡ 1 → IfSome (target_in (view s.old) target) (λ q. Has (view s.new).facts (fact.Shaded q)) }
{
    let object = match s.held(var) {
        None => return Linked {
            reply: Reply::Empty,
            shaded: None,
        },
        Some(object) => object,
    };
    let word = match target_word(shared, s, target) {
        None => return Linked {
            reply: Reply::Empty,
            shaded: None,
        },
        Some(word) => word,
    };
    let shaded = shade_target(shared, s, word);
    link_reference(shared, s, object, k, target, word);
    Linked {
        reply: Reply::Ok,
        shaded,
    }
}

/// Fetches what reference `k`, below 4, of the object of the variable `var` holds into the variable `into`; variables are below 16.
/// Empty exactly where `var` holds nothing, and `into` is then as before. Else an object, or nothing where the reference holds none at
/// the event, and `into` then holds the same (`HoldsReply` and `IsAtSpot` of `specs/Graph.antt`).
pub fn fetch(shared: &Shared, s: &mut Session, into: u32, var: u32, k: u32) -> Reply
    requires caller { IsOf shared.now s.old }
    requires variables { (into < 16) × (var < 16) }
    requires few { k < 4 }
    ensures caller { IsOf shared.now s.new }
    ensures made { Made (view s.old) (op.Fetch into var k) result (view s.new) }
    ensures holds { HoldsReply (view s.old) into result (view s.new) }
    ensures empty { (result ≡ reply.Empty) ↔ (held_in (view s.old) var ≡ None) }
    ensures found { IfSome (held_in (view s.old) var) (λ object. IsAtSpot (view s.new) (Ref object k) result) }
{
    match s.held(var) {
        None => Reply::Empty,
        Some(object) => reply_of(get_reference(shared, s, into, object, k)),
    }
}
