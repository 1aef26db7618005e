//! Laws of expressions, which the safety of a module rests on.

ghost use Rattle.td_expr.specs.Laws.{ValuesInRange, RefinementsHold, AdmittedIsSound, FactsLast};

/// Where each operator is safe under the facts at its place, and these facts hold, each part that is evaluated lies in
/// its type's range.
pub fn values_in_range()
    ensures { ValuesInRange }
{}

/// The facts of a condition hold where it was evaluated and was true, or was false.
pub fn facts_hold()
    ensures { RefinementsHold }
{}

/// An expression without an operator that isn't safe has values in range where its facts hold.
pub fn admitted_is_sound()
    ensures { AdmittedIsSound }
{}

/// Facts that hold go on to hold when more values come into scope.
pub fn facts_last()
    ensures { FactsLast }
{}
