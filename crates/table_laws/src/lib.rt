//! The laws of the plain table: what holds of its definitions, with no code.
//!
//! Each law is a function that does nothing and whose contract is the law, stated in `specs/Laws.antt` over the definitions
//! of `plain_table` alone: a caller may cite it. Its words stand in `specs/`: what an event leaves as it was
//! (`Steady.antt`), what was last stored in a cell (`Stored.antt`), and why a finish keeps a cell (`Causes.antt`).
#![tactic(auto)]

ghost use Rattle.plain_table.specs.Openings.{FreshImagesShowTheOpening, OpeningsAreSound};
ghost use Rattle.table_laws.specs.Laws.{
  CellsMoveToTheirTarget,
  CellsStandAtTheirPlace,
  EventsAreSteady,
  EventsKeepSoundness,
  FinishesArePrecise,
  FinishesCannotBeRefused,
  HistoriesAreSound,
  HoldersKeepTheirIndex,
  HoldersReadTheirOwn,
  HoldersStayLive,
  ReachOnlyGrowsByNew,
  TakesFindTheLeast,
  TargetsAreTheGreatest,
  ValuesWereStored,
  VersionsAgree,
};

/// The table before anything happened is sound.
pub fn openings_are_sound()
    ensures { OpeningsAreSound }
{}

/// An image with the contents of a fresh one shows the table before anything happened, and is lawful.
pub fn fresh_images_show_the_opening()
    ensures { FreshImagesShowTheOpening }
{}

/// Each legal event of any sound table, a start or a finish included, leaves a sound table.
pub fn events_keep_soundness()
    ensures { EventsKeepSoundness }
{}

/// Each table after a legal history is sound.
pub fn histories_are_sound()
    ensures { HistoriesAreSound }
{}

/// An event that neither starts nor finishes a cycle leaves cells, marks, used indexes, safe fields and what other
/// numbers have as they were, or lets them only grow.
pub fn events_are_steady()
    ensures { EventsAreSteady }
{}

/// The cell at a live holder's word is its own, with the tag of its put and the value last stored in it.
pub fn holders_read_their_own()
    ensures { HoldersReadTheirOwn }
{}

/// A live holder stays one, until its object can't be reached any more or its field is forged.
pub fn holders_stay_live()
    ensures { HoldersStayLive }
{}

/// No take answers the index of a live holder.
pub fn holders_keep_their_index()
    ensures { HoldersKeepTheirIndex }
{}

/// Each cell that a finish keeps has a cause in its cycle: it was written, or a field's word named it.
pub fn finishes_are_precise()
    ensures { FinishesArePrecise }
{}

/// What a take finds is the least of the free indexes, and it finds none just where there is none.
pub fn takes_find_the_least()
    ensures { TakesFindTheLeast }
{}

/// Where a marked cell of the area moves is the greatest of the evacuation entries of fields whose word names it.
pub fn targets_are_the_greatest()
    ensures { TargetsAreTheGreatest }
{}

/// After a finish with an area and no abort each external cell stands below the area, and each one that moved stands
/// at its target, with its id, tag and value.
pub fn cells_move_to_their_target()
    ensures { CellsMoveToTheirTarget }
{}

/// After a finish an index holds just the cell whose place it is, and no two cells have one place.
pub fn cells_stand_at_their_place()
    ensures { CellsStandAtTheirPlace }
{}

/// An object that can be reached after an event could be reached before it, or was made by it.
pub fn reach_only_grows_by_new()
    ensures { ReachOnlyGrowsByNew }
{}

/// A look that answers a value found a cell whose put had the asked tag, with the value last stored there.
pub fn values_were_stored()
    ensures { ValuesWereStored }
{}

/// A finish can't be refused once each reachable object was scanned or is born in the cycle.
pub fn finishes_cannot_be_refused()
    ensures { FinishesCannotBeRefused }
{}

/// Whether an outcome belongs to a script by a history does not depend on the version of the script.
pub fn versions_agree()
    ensures { VersionsAgree }
{}
