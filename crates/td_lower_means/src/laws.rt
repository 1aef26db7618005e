//! Laws of lowered code. They do nothing when they are called.

ghost use Rattle.td_lower_means.specs.CodeRun.{CodeMeans, ArgumentsFit};
ghost use Rattle.td_lower_means.specs.Ready.{DefinitionsArePlaced};

/// Code that is the blocks of a module's definitions, laid out, does from each entry point what the module means: it ends with
/// the meaning's verdict, frames and cells, and looks at the places that the meaning reads, in the same order.
pub fn code_means()
    ensures { CodeMeans }
{}

/// Arguments and cells that fit an entry point of a module fit the same entry point of its code.
pub fn arguments_fit()
    ensures { ArgumentsFit }
{}

/// In a checked module the expressions of each definition name what is in scope and have registers enough, where the unit of
/// bit fields stands behind all levels and there are as many registers as are used.
pub fn definitions_are_placed()
    ensures { DefinitionsArePlaced }
{}
