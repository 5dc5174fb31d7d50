// The pause of a take after a lost exchange.
ghost use Rattle.std.specs.Prelude.{◌≡◌, ◌*◌, min};

use std::hint::spin_loop;

/// How many turns the first pause has.
pub(crate) const FIRST_TURNS: u32 = 4;

/// How many turns a pause has at most.
const MOST_TURNS: u32 = 1_024;

/// Has the processor pause for so many turns, and answers how many the next pause has: four times as many, so that of many sessions
/// that take from one list few try at once.
pub(crate) fn pause(turns: u32) -> u32
    ensures { result ≡ min (4 * turns) MOST_TURNS }
{
    for _ in 0..turns {
        spin_loop();
    }
    turns.saturating_mul(4).min(MOST_TURNS)
}
