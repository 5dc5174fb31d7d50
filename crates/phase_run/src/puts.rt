// How many external cells the calls of a phase put.
ghost use Rattle.std.specs.Prelude.{◌≡◌, ◌≤◌};
ghost use Rattle.script_reader.specs.Lines.{most_operations};
ghost use Rattle.script_reader.specs.Valid.{lists_length};
ghost use Rattle.phase_run.specs.Run.{puts_of_all};

use phase_calls::count_puts;
use plain_table::{Op, Reply};
use sqlite_items::Items;

/// How many external cells the calls of all mutators put, by their replies.
pub fn count_all_puts(calls: &[Items<Op>], replies: &[Items<Reply>]) -> u32
    requires { lists_length calls.now ≤ most_operations }
    ensures puts { result ≡ puts_of_all calls.now replies.now }
    ensures few { result ≤ lists_length calls.now }
{
    let mut puts = 0;
    for (made, said) in calls.iter().zip(replies) {
        puts += count_puts(made.as_slice(), said.as_slice());
    }
    puts
}
