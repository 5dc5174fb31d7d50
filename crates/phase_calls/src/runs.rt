// The calls of a mutator in turn, and how many external cells they put.
ghost use Rattle.std.specs.Prelude.{◌≡◌, ◌<◌, ◌≤◌, All, [], length, vec_capacity};
ghost use Rattle.script_reader.specs.Lines.{most_operations};
ghost use Rattle.script_reader.specs.Valid.{IsValidOp};
ghost use Rattle.entry_base.specs.Sessions.{view, IsOf};
ghost use Rattle.phase_calls.specs.Calls.{MakesInTurn, puts_by, puts_of};

use crate::dispatch::make_call;
use crate::gates::Gate;
use entry_base::{Session, Shared};
use plain_table::{Op, Reply};

/// Makes the calls of a mutator in turn, passes the gate before each, and lists their replies in `replies`, which is empty and has
/// room for all of them (`MakesInTurn` of `specs/Calls.antt`). The session's number is below 8. It takes no memory.
pub fn run_calls<G: Gate>(
    shared: &Shared,
    s: &mut Session,
    calls: &[Op],
    replies: &mut Vec<Reply>,
    gate: &G,
)
    requires caller { IsOf shared.now s.old }
    requires mutator { (view s.old).number < 8 }
    requires valid { All (IsValidOp 2) calls.now }
    requires few { length calls.now ≤ most_operations }
    requires room { (replies.old.items ≡ []) × (length calls.now ≤ vec_capacity replies.old) }
    ensures caller { IsOf shared.now s.new }
    ensures makes { MakesInTurn (view s.old) calls.now replies.new.items (view s.new) }
{
    let mut number = 0;
    for call in calls {
        gate.pass(s.number, number);
        let said = make_call(shared, s, call);
        replies.push_reserved(said);
        number += 1;
    }
}

/// How many external cells a call put: an `init` puts one, where it finds an object and room.
fn puts_by(call: &Op, said: Reply) -> u32
    ensures puts { result ≡ puts_by call.now said }
    ensures one { result ≤ 1 }
{
    match (call, said) {
        (Op::Init { .. }, Reply::Ok | Reply::Taken(_)) => 1,
        _ => 0,
    }
}

/// How many external cells calls put, by their replies.
pub fn count_puts(calls: &[Op], replies: &[Reply]) -> u32
    requires { length calls.now ≤ most_operations }
    ensures puts { result ≡ puts_of calls.now replies.now }
    ensures few { result ≤ length calls.now }
{
    let mut puts = 0;
    for (call, said) in calls.iter().zip(replies) {
        puts += puts_by(call, *said);
    }
    puts
}
