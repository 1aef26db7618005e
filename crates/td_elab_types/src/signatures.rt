//! Parameters by their places.

ghost use Rattle.std.specs.Prelude.{◌≡◌, slice_get};

use td_elab_rules::known::Parameter;

/// The parameter at a place, where there is one.
pub(crate) fn parameter_at(parameters: &[Parameter], i: usize) -> Option<Parameter>
    ensures { result ≡ slice_get parameters.now i }
{
    parameters.get(i).copied()
}
