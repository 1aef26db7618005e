//! Laws of the definitions.

ghost use Rattle.std.specs.Prelude.{◌≡◌, ℕ, ◌<◌, List, length, slice_index, take};
ghost use mathlib.Core.Option.{some};
ghost use lib.ListN.{get_elem?};
ghost use Rattle.td_words.specs.declared.view.Access.TheVariants.{Load};
ghost use Rattle.td_words.specs.declared.view.HostView.{HostView};
ghost use Rattle.td_words.specs.History.{Entry, IsHistory, last_stored, memory_after};
ghost use Rattle.td_words.specs.Gathered.{Fetched, IsHistoryOf};

/// The word that a history leaves is the last store to it, or without one the opening word.
pub fn words_are_last_stored()
    ensures { (words : List ℕ) (log : List Entry) (i : ℕ) → i < length words
        → slice_index (memory_after words log) i ≡ last_stored i (slice_index words i) log }
{}

/// Each load of a history has the value of the last store to its word before it, or without one the opening word.
pub fn loads_are_last_stored()
    ensures { (words : List ℕ) (log : List Entry) (k n i w : ℕ) → IsHistory words log → i < length words
        → get_elem? log k ≡ some (n, Load i w) → w ≡ last_stored i (slice_index words i) (take k log) }
{}

/// The fetch rule: where each seat made was gathered, what one of them loaded is the opening word, or one of them stored it.
pub fn loads_were_opened_or_stored()
    ensures { (h : HostView) (log : List Entry) → IsHistoryOf h log → length h.ended ≡ h.made → Fetched h }
{}
