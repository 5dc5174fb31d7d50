// The calls of a mutator, each by the session call of its name.
ghost use Rattle.std.specs.Prelude.{◌≡◌, ◌<◌};
ghost use Rattle.plain_table.specs.Rows.{IsTag};
ghost use Rattle.script_reader.specs.Valid.{IsValidOp};
ghost use Rattle.tag_set.specs.Range.{IsRange};
ghost use Rattle.entry_base.specs.Sessions.{view, IsOf};
ghost use Rattle.phase_calls.specs.Calls.{Makes};
ghost use Rattle.phase_calls.specs.Ranges.{AsksRange};

use entry_base::{Session, Shared};
use plain_table::{Op, Reply};
use tag_set::{Range, Tag};

/// Makes one call of a mutator, whose number is below 8, and answers its reply (`Makes` of `specs/Calls.antt`).
pub fn make_call(shared: &Shared, s: &mut Session, call: &Op) -> Reply
    requires caller { IsOf shared.now s.old }
    requires mutator { (view s.old).number < 8 }
    requires valid { IsValidOp 2 call.now }
    ensures caller { IsOf shared.now s.new }
    ensures makes { Makes (view s.old) call.now result (view s.new) }
{
    match *call {
        Op::New { var } => graph_steps::new_object(shared, s, var),
        Op::Drop { var } => graph_steps::drop_var(shared, s, var),
        Op::Link { var, k, target } => graph_steps::link(shared, s, var, k, target).reply,
        Op::Fetch { into, var, k } => graph_steps::fetch(shared, s, into, var, k),
        Op::SetG { g, target } => graph_steps::link_global(shared, s, g, target),
        Op::GetG { into, g } => graph_steps::fetch_global(shared, s, into, g),
        Op::Init { var, f, tag, value } => access_steps::init(
            shared,
            s,
            var,
            f,
            known_tag(tag),
            value,
        ),
        Op::Name { var, f } => access_steps::name(shared, s, var, f),
        Op::Forge { var, f, word } => access_steps::forge(shared, s, var, f, word),
        Op::TNew { var, tag, value } => trusted_steps::tnew(shared, s, var, known_tag(tag), value),
        Op::TPub { var } => trusted_steps::publish(shared, s, var),
        Op::Share { from, to } => trusted_steps::share(shared, s, from, to),
        _ => make_ranged_call(shared, s, call),
    }
}

/// Makes one call that asks a range of tags, and answers its reply.
fn make_ranged_call(shared: &Shared, s: &mut Session, call: &Op) -> Reply
    requires caller { IsOf shared.now s.old }
    requires valid { IsValidOp 2 call.now }
    requires ranged { AsksRange call.now }
    ensures caller { IsOf shared.now s.new }
    ensures makes { Makes (view s.old) call.now result (view s.new) }
{
    match *call {
        Op::Load {
            var,
            f,
            first,
            last,
        } => access_steps::load(shared, s, var, f, known_range(first, last)),
        Op::Store {
            var,
            f,
            first,
            last,
            value,
        } => access_steps::store(shared, s, var, f, known_range(first, last), value),
        Op::Swap {
            var,
            f,
            first,
            last,
            value,
        } => access_steps::swap(shared, s, var, f, known_range(first, last), value),
        Op::Raw { word, first, last } => access_steps::raw_load(
            shared,
            s,
            word,
            known_range(first, last),
        ),
        Op::RawSet {
            word,
            first,
            last,
            value,
        } => access_steps::raw_store(shared, s, word, known_range(first, last), value),
        Op::TLoad { var, first, last } => trusted_steps::tload(
            shared,
            s,
            var,
            known_range(first, last),
        ),
        Op::TRaw { word, first, last } => trusted_steps::traw(
            shared,
            s,
            word,
            known_range(first, last),
        ),
        _ => unreachable!(),
    }
}

/// The tag of a byte that is one.
fn known_tag(byte: u8) -> Tag
    requires { IsTag byte }
    ensures { result ≡ byte }
{
    Tag::of(byte).unwrap()
}

/// The range with these ends.
fn known_range(first: u8, last: u8) -> Range
    requires { IsRange first last }
    ensures { (result.first ≡ first) × (result.last ≡ last) }
{
    Range::of(known_tag(first), known_tag(last)).unwrap()
}
