// Calls that link and fetch globals.
ghost use Rattle.std.specs.Prelude.{◌≡◌, ◌⊎◌, ◌↔◌, ◌<◌, IfSome};
ghost use Rattle.plain_table.specs.declared.scripts.Op.TheVariants as op;
ghost use Rattle.plain_table.specs.declared.events.Spot.TheVariants.{Global};
ghost use Rattle.plain_table.specs.declared.reports.Reply.TheVariants as reply;
ghost use Rattle.entry_base.specs.Sessions.{view, IsOf};
ghost use Rattle.call_base.specs.Called.{LeavesOwn, Made};
ghost use Rattle.graph_steps.specs.Graph.{HoldsReply, IsAtSpot, IsUnheld};

use crate::references::{reply_of, target_word};
use entry_base::{Session, Shared};
use object_rule::get_global;
use plain_table::Reply;

/// Links a global, below 16, to the object of the variable `target`, below 16, or to nothing. The reply is empty exactly where that
/// variable holds nothing, and else ok. It shades nothing, since the pause scans the globals.
pub fn link_global(shared: &Shared, s: &mut Session, g: u32, target: Option<u32>) -> Reply
    requires caller { IsOf shared.now s.old }
    requires global { g < 16 }
    requires target { IfSome target (λ var. var < 16) }
    ensures caller { IsOf shared.now s.new }
    ensures made { Made (view s.old) (op.SetG g target) result (view s.new) }
    ensures leaves { LeavesOwn (view s.old) (view s.new) }
    ensures empty { (result ≡ reply.Empty) ↔ IsUnheld (view s.old) target }
    ensures kinds { (result ≡ reply.Empty) ⊎ (result ≡ reply.Ok) }
{
    let word = match target_word(shared, s, target) {
        None => return Reply::Empty,
        Some(word) => word,
    };
    object_rule::link_global(shared, s, g, target, word);
    Reply::Ok
}

/// Fetches what a global, below 16, holds into a variable, below 16: an object, or nothing where the global holds none at the event
/// (`IsAtSpot` of `specs/Graph.antt`). The variable then holds the same.
pub fn fetch_global(shared: &Shared, s: &mut Session, into: u32, g: u32) -> Reply
    requires caller { IsOf shared.now s.old }
    requires mutator { (view s.old).number < 8 }
    requires variable { into < 16 }
    requires global { g < 16 }
    ensures caller { IsOf shared.now s.new }
    ensures made { Made (view s.old) (op.GetG into g) result (view s.new) }
    ensures holds { HoldsReply (view s.old) into result (view s.new) }
    ensures found { IsAtSpot (view s.new) (Global g) result }
{
    reply_of(get_global(shared, s, into, g))
}
