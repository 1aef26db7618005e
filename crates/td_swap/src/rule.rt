//! The rule of the version word, and what its steps tell.

use crate::view::View;
use atomic_table::{Join, Play, Split, TableRule};

/// The table's word is the number that the one publisher published last, and no seat loaded a greater one, nor a smaller one
/// after a greater. The key is how many versions there are.
pub(crate) struct NeverFalls;

impl TableRule<u8, View, usize> for NeverFalls {
    ghost use Rattle.td_swap.specs.Rule.{KeepsVersions};
    ghost use Rattle.td_swap.specs.Views.{publisher_view};
    ghost use Rattle.td_swap.specs.declared.view.View.TheVariants.{Publisher};

    ghost holds = { λ _ s. KeepsVersions s };

    ghost first = { λ k. Publisher (publisher_view k 0) 0 };
}

/// The publisher's store.
pub(crate) struct Publishes;

impl Play<u8, View> for Publishes {
    ghost use Rattle.td_swap.specs.Rule.{Published};

    ghost then = { Published };
}

/// A load of the word.
pub(crate) struct Loads;

impl Play<u8, View> for Loads {
    ghost use Rattle.td_swap.specs.Rule.{LoadedVersion};

    ghost then = { LoadedVersion };
}

/// The publisher makes a seat that loads: the first one.
pub(crate) struct First;

impl Split<View> for First {
    ghost use Rattle.std.specs.Prelude.{◌+◌};
    ghost use Rattle.td_swap.specs.Rule.{publisher_in, made_in};
    ghost use Rattle.td_swap.specs.Views.{new_view};
    ghost use Rattle.td_swap.specs.declared.view.View.TheVariants.{Publisher, Swap};

    ghost left = { λ v. Publisher (publisher_in v) (made_in v + 1) };

    ghost right = { λ v. Swap (new_view (publisher_in v).count) };
}

/// A seat that loads makes another.
pub(crate) struct Another;

impl Split<View> for Another {
    ghost use Rattle.td_swap.specs.Rule.{swap_in};
    ghost use Rattle.td_swap.specs.Views.{new_view, one_more};
    ghost use Rattle.td_swap.specs.declared.view.View.TheVariants.{Swap};

    ghost left = { λ v. Swap (one_more (swap_in v)) };

    ghost right = { λ v. Swap (new_view (swap_in v).count) };
}

/// A seat that loads takes another back, whose view is spent.
pub(crate) struct Gathers;

impl Join<View> for Gathers {
    ghost use Rattle.td_swap.specs.Rule.{swap_in};
    ghost use Rattle.td_swap.specs.Views.{with_ended};
    ghost use Rattle.td_swap.specs.declared.view.View.TheVariants.{Swap, Spent};

    ghost both = { λ v w. Swap (with_ended (swap_in v) (swap_in w)) };

    ghost spent = { Spent };
}
