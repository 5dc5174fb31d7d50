// The rule, and the kinds of step.
use crate::view::View;
use atomic_table::{Join, Play, Split, TableRule};

/// The rule of `specs/Rule.antt`. The key is the words at the opening.
pub struct OneClaimer;

impl TableRule<(), View, Vec<u64>> for OneClaimer {
    ghost use Rattle.code_steps.specs.Rule.{Ruled};
    ghost use Rattle.code_steps.specs.Views.{first_view};

    ghost holds = { λ key t. Ruled t };

    ghost first = { λ key. first_view key.items };
}

/// A load of a sequence.
pub struct LoadsSequence;

impl Play<(), View> for LoadsSequence {
    ghost use Rattle.code_steps.specs.Steps.{loaded_sequence};

    ghost then = { loaded_sequence };
}

/// A load of the code number.
pub struct LoadsCode;

impl Play<(), View> for LoadsCode {
    ghost use Rattle.code_steps.specs.Steps.{loaded_code};

    ghost then = { loaded_code };
}

/// A load of the entry number.
pub struct LoadsEntry;

impl Play<(), View> for LoadsEntry {
    ghost use Rattle.code_steps.specs.Steps.{loaded_entry};

    ghost then = { loaded_entry };
}

/// A load of a number which tells what holds of the seat's view.
pub struct Learns;

impl Play<(), View> for Learns {
    ghost use Rattle.code_steps.specs.Steps.{learned};

    ghost then = { learned };
}

/// A claim: an exchange of a sequence from even to odd.
pub struct Claims;

impl Play<(), View> for Claims {
    ghost use Rattle.code_steps.specs.Steps.{claimed};

    ghost then = { claimed };
}

/// A swap of the code number by the claimer.
pub struct StoresCode;

impl Play<(), View> for StoresCode {
    ghost use Rattle.code_steps.specs.Steps.{stored_code};

    ghost then = { stored_code };
}

/// A swap of the entry number by the claimer.
pub struct StoresEntry;

impl Play<(), View> for StoresEntry {
    ghost use Rattle.code_steps.specs.Steps.{stored_entry};

    ghost then = { stored_entry };
}

/// A release: a swap of a sequence to the next even one, by the claimer.
pub struct Releases;

impl Play<(), View> for Releases {
    ghost use Rattle.code_steps.specs.Steps.{released};

    ghost then = { released };
}

/// A part is given to a new seat.
pub struct GivesPart;

impl Split<View> for GivesPart {
    ghost use Rattle.code_steps.specs.Views.{giver, newcomer};

    ghost left = { giver };

    ghost right = { newcomer };
}

/// The views of two seats are put together.
pub struct TakesIn;

impl Join<View> for TakesIn {
    ghost use Rattle.code_steps.specs.Views.{both, spent};

    ghost both = { both };

    ghost spent = { spent };
}
