// The rule as `atomic_table` takes it, and the kinds of step that change two seats. A step of any other kind is `Learns<N>`,
// where N says what the seat learns.
use crate::view::View;
use atomic_table::{Join, Play, Split, TableRule};
use entry_word::Image;
use std::marker::{Brand, PhantomData};

/// The rule of `specs/Rule.antt`. Its key is the image that the phase was opened with.
pub struct OneHistory;

impl TableRule<(), View, Image> for OneHistory {
    ghost use Rattle.entry_base.specs.Rule.{Ruled};
    ghost use Rattle.entry_base.specs.Openings.{opening_of};
    ghost use Rattle.entry_base.specs.Views.{first_view};

    ghost holds = { λ key t. Ruled (opening_of key) t };

    ghost first = { λ key. first_view (opening_of key) };
}

/// What a seat learns in a step, of the word that is found and of its view before and after. Each call of a step picks it.
pub trait Learning {
    ghost use Rattle.std.specs.Prelude.{ℕ};
    ghost use Rattle.entry_base.specs.declared.view.View.{View as Known};

    ghost learns: { ℕ → Known → Known → Type 0 };
}

impl Learning for Brand {
    ghost use Rattle.entry_base.specs.Learned.{learns_nothing};

    ghost learns = { learns_nothing };
}

/// A step of any kind, by which the seat learns what `N` says.
pub struct Learns<N> {
    learns: PhantomData<N>,
}

impl<N: Learning> Play<(), View> for Learns<N> {
    ghost use Rattle.entry_base.specs.Learned.{learned_by};

    ghost then = { learned_by N.learns };
}

/// What a split gives away: each call picks it.
pub(crate) trait Giving {
    ghost use Rattle.std.specs.Prelude.{ℕ, List};

    ghost number: { ℕ };

    ghost owed: { List ℕ };
}

impl Giving for Brand {
    ghost use Rattle.std.specs.Prelude.{[]};

    ghost number = { 0 };

    ghost owed = { [] };
}

/// A number and some hands go to a new session.
pub(crate) struct Gives<N> {
    gives: PhantomData<N>,
}

impl<N: Giving> Split<View> for Gives<N> {
    ghost use Rattle.entry_base.specs.Views.{giver, newcomer};

    ghost left = { giver N.number N.owed };

    ghost right = { newcomer N.number N.owed };
}

/// Some hands go to a chunk.
pub(crate) struct Cuts<N> {
    cuts: PhantomData<N>,
}

impl<N: Giving> Split<View> for Cuts<N> {
    ghost use Rattle.entry_base.specs.Views.{cutter, chunk_view};

    ghost left = { cutter N.owed };

    ghost right = { chunk_view N.owed };
}

/// A session takes in another one.
pub(crate) struct TakesIn;

impl Join<View> for TakesIn {
    ghost use Rattle.entry_base.specs.Views.{both, spent};

    ghost both = { both };

    ghost spent = { spent };
}

/// A session takes in a chunk.
pub(crate) struct Absorbs;

impl Join<View> for Absorbs {
    ghost use Rattle.entry_base.specs.Views.{absorber, spent};

    ghost both = { absorber };

    ghost spent = { spent };
}

/// The load after a join, which tells that the longer history begins with the shorter one.
pub(crate) struct Meets;

impl Play<(), View> for Meets {
    ghost use Rattle.entry_base.specs.Learned.{meets};

    ghost then = { meets };
}
