// Tables that are closed by the first session and those that were split off it.
ghost use Rattle.std.specs.Prelude.{◌≡◌, ◌≢◌, ◌≤◌, List, [], ◌∷◌};
ghost use Rattle.plain_table.specs.declared.events.Event.{Event};
ghost use Rattle.plain_table.specs.Shows.{IsLawful};
ghost use Rattle.entry_word.specs.Image.{image_of, sizes_of};
ghost use Rattle.entry_base.specs.Callers.{IsClosed};
ghost use Rattle.entry_base.specs.Lists.{StartsWith, without_one};
ghost use Rattle.entry_base.specs.Openings.{opening_of, sizes_in};
ghost use Rattle.entry_base.specs.Sessions.{view, opened_with, IsOf};
ghost use Rattle.entry_base.specs.Views.{numbers_below};

use entry_base::{Session, Shared};
use entry_word::Image;

/// Closes a table by a session that has the numbers of the first one. The image shows the table after what the session had seen.
pub fn close_whole(shared: Shared, first: Session) -> Image
    requires caller { IsOf shared first }
    requires whole { (view first).numbers ≡ numbers_below 13 }
    ensures closed { IsClosed (view first).opening (view first).seen (opening_of result) }
    ensures lawful { IsLawful (image_of result) }
    ensures sizes { sizes_of result.shape ≡ sizes_in (opened_with shared) }
{
    shared.finish(first)
}

/// Closes a table by the first session and one that was split off it. The image shows the table after a history that begins with
/// what each of both had seen.
pub fn close_both(shared: Shared, mut first: Session, one: Session) -> Image
    requires callers { IsOf shared first × IsOf shared one }
    requires low { (view one).number ≤ 12 }
    requires given { (view first).numbers ≡ without_one (view one).number (numbers_below 13) }
    requires back { (view one).numbers ≡ (view one).number ∷ [] }
    ensures closed { (seen : List Event) × IsClosed (view first).opening seen (opening_of result) × StartsWith seen (view first).seen × StartsWith seen (view one).seen }
    ensures lawful { IsLawful (image_of result) }
    ensures sizes { sizes_of result.shape ≡ sizes_in (opened_with shared) }
{
    first.join(&shared, one);
    shared.finish(first)
}

/// Closes a table by the first session and two that were split off it, the first of them first.
pub fn close_three(shared: Shared, mut first: Session, one: Session, two: Session) -> Image
    requires callers { IsOf shared first × IsOf shared one × IsOf shared two }
    requires low { ((view one).number ≤ 12) × ((view two).number ≤ 12) }
    requires differ { (view one).number ≢ (view two).number }
    requires given { (view first).numbers ≡ without_one (view two).number (without_one (view one).number (numbers_below 13)) }
    requires back { ((view one).numbers ≡ (view one).number ∷ []) × ((view two).numbers ≡ (view two).number ∷ []) }
    ensures lawful { IsLawful (image_of result) }
    ensures sizes { sizes_of result.shape ≡ sizes_in (opened_with shared) }
{
    first.join(&shared, one);
    first.join(&shared, two);
    shared.finish(first)
}

/// Closes a table by the first session and the sessions of the numbers 0 to 3, which were split off it.
pub fn close_five(
    shared: Shared,
    mut first: Session,
    low: (Session, Session),
    high: (Session, Session),
) -> Image
    requires first { IsOf shared first }
    requires low { IsOf shared low.0 × IsOf shared low.1 }
    requires high { IsOf shared high.0 × IsOf shared high.1 }
    requires given { (view first).numbers ≡ 12 ∷ 11 ∷ 10 ∷ 9 ∷ 8 ∷ 7 ∷ 6 ∷ 5 ∷ 4 ∷ [] }
    requires low_back { ((view low.0).numbers ≡ 0 ∷ []) × ((view low.1).numbers ≡ 1 ∷ []) }
    requires high_back { ((view high.0).numbers ≡ 2 ∷ []) × ((view high.1).numbers ≡ 3 ∷ []) }
    ensures lawful { IsLawful (image_of result) }
    ensures sizes { sizes_of result.shape ≡ sizes_in (opened_with shared) }
{
    first.join(&shared, low.0);
    first.join(&shared, low.1);
    first.join(&shared, high.0);
    first.join(&shared, high.1);
    shared.finish(first)
}
