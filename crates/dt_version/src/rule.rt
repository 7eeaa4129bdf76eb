use crate::view::{Size, View};
use atomic_table::TableRule;
use dt_gate::Meaning;
use std::marker::PhantomData;

// The rule of a store's table.
pub(crate) struct Rule<M> {
    meaning: PhantomData<M>,
}

impl<M: Meaning> TableRule<u8, View<M>, Size> for Rule<M> {
    ghost use Rattle.dt_gate.specs.Gate.{fresh_author};
    ghost use Rattle.dt_version.specs.Limits.{bounds};
    ghost use Rattle.dt_version.specs.Rule.{Holds};
    ghost use Rattle.dt_version.specs.declared.view.View.TheVariants as view;

    ghost holds = { Holds M.shows };

    ghost first = { λ size. view.Author size (fresh_author (bounds size)) };
}
