// The rule of the table, and what its steps tell. These types are for the proofs alone.
ghost use Rattle.std.specs.Prelude.{◌≡◌, ℕ, [], ◌-◌};
ghost use Rattle.op_table.specs.Rule.{view, IsKept};
ghost use Rattle.op_table.specs.Plays.{work, IsLoad, IsMove, IsSwap, join_of, spent_view};

use crate::plan::{Key, Plan};
use crate::view::View;
use atomic_table::{Join, Play, Split, TableRule};
use std::marker::{Brand, PhantomData};

/// The rule of a table: its cells are what the operations of the chunks make of the opening words, each chunk up to its position.
pub struct ByOps;

impl<S, P: Plan> TableRule<S, View, Key<P>> for ByOps {
    ghost holds = { λ key. IsKept (work P.ops key) };

    ghost first = { λ key. view [] [] key.parts };
}

// The chunk that a step is of, and a number: the word that a load finds, the parts that are all, or those that are given away.
// A call at `Brand` picks them.
pub(crate) trait Aim {
    ghost chunk: { ℕ };

    ghost number: { ℕ };
}

impl Aim for Brand {
    ghost chunk = { 0 };

    ghost number = { 0 };
}

pub(crate) struct Loads<J> {
    marker: PhantomData<J>,
}

impl<S, J: Aim> Play<S, View> for Loads<J> {
    ghost then = { λ s m r n. IsLoad J.chunk J.number m r n };
}

pub(crate) struct Moves<J> {
    marker: PhantomData<J>,
}

impl<S, J: Aim> Play<S, View> for Moves<J> {
    ghost then = { λ s m r n. IsMove J.chunk m n };
}

pub(crate) struct Draws;

impl<S> Play<S, View> for Draws {
    ghost then = { λ s m r n. n ≡ m };
}

pub(crate) struct Swaps<J> {
    marker: PhantomData<J>,
}

impl<S, J: Aim> Play<S, View> for Swaps<J> {
    ghost then = { λ s m r n. IsSwap J.chunk J.number m r n };
}

pub(crate) struct Gives<J> {
    marker: PhantomData<J>,
}

impl<J: Aim> Split<View> for Gives<J> {
    ghost left = { λ v. view [] v.found (v.parts - J.number) };

    ghost right = { λ v. view [] [] J.number };
}

pub(crate) struct Both;

impl Join<View> for Both {
    ghost both = { join_of };

    ghost spent = { spent_view };
}
