//! Laws of module texts and their refusals. They do nothing when they are called.

ghost use Rattle.td_front.specs.Laws.{OneModuleEach, OneRefusalEach, NeverBoth, AlwaysOne, ModulesAreChecked, PartsAreAnsweredFlat, ModulesAreAnsweredAlone};

use td_elab::laws::{breaches_are_all, one_is_first, some_is_first};
use td_elab_rules::laws::{
    fields_are_whole, modules_are_copying, modules_are_formed, modules_are_named,
    modules_are_sorted, modules_are_whole,
};
use td_front_facts::laws::{
    depths_are_within, modules_are_within, names_are_words, nodes_are_within,
    spelled_names_are_apart, steps_are_sizes, types_are_alike, weights_are_within,
};
use td_front_flat::laws::each_answered as each_linked;
use td_front_flat_facts::laws::one_answer_each as one_of_each;
use td_grammar::laws::{each_answered, never_both, one_refused, one_too_deep, one_tree};
use td_lexer::tokens_are_the_splitting;

// What the laws of texts below say, by those of the crates below on tokens, trees, breaches and parts.
fn texts_are_answered()
    ensures one_module { OneModuleEach }
    ensures one_refusal { OneRefusalEach }
    ensures never_both { NeverBoth }
    ensures always_one { AlwaysOne }
    ensures parts { PartsAreAnsweredFlat }
    ensures alone { ModulesAreAnsweredAlone }
{
    tokens_are_the_splitting();
    each_answered();
    one_tree();
    one_refused();
    one_too_deep();
    never_both();
    one_is_first();
    some_is_first();
    breaches_are_all();
    each_linked();
    one_of_each();
}

/// A text stands for at most one module, or has at most one refusal, and never both.
pub fn one_answer_each()
    ensures one_module { OneModuleEach }
    ensures one_refusal { OneRefusalEach }
    ensures never_both { NeverBoth }
{
    texts_are_answered();
}

/// A text stands for a module, or it has a refusal.
pub fn module_or_refusal()
    ensures { AlwaysOne }
{
    texts_are_answered();
}

/// Where no count is passed and neither breach of parts comes, a text is answered as the one tree that its parts are, at the
/// same places; a text without parts is answered as its tree.
pub fn parts_are_answered_flat()
    ensures parts { PartsAreAnsweredFlat }
    ensures alone { ModulesAreAnsweredAlone }
{
    texts_are_answered();
}

/// What holds of each module for which a text stands: names are words and have their places, operators are safe, sizes are
/// known, and all is within the limits of a text.
pub fn modules_are_checked()
    ensures { ModulesAreChecked }
{
    modules_are_formed();
    modules_are_copying();
    modules_are_sorted();
    modules_are_whole();
    fields_are_whole();
    modules_are_named();
    spelled_names_are_apart();
    names_are_words();
    types_are_alike();
    modules_are_within();
    nodes_are_within();
    depths_are_within();
    weights_are_within();
    steps_are_sizes();
}
