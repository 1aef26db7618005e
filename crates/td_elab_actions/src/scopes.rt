//! Scopes and names that are given, as they grow.

ghost use Rattle.std.specs.Prelude.{◌≡◌, ◌-◌, ◌^◌, ◌⊎◌, false, is_some, OnErr, OnOk};
ghost use Rattle.td_core.specs.Formed.{scalar_of};
ghost use Rattle.td_names.specs.Names.{looked_up, is_seen};
ghost use Rattle.td_elab_rules.specs.Known.{with_local, with_level, with_value, with_outer, with_field_name};
ghost use Rattle.td_elab_actions.specs.Scopes.{cut_back};

use std::alloc::{AllocError, Global};
use td_core::expressions::Scalar;
use td_elab_rules::known::{Local, Scope, Taken};
use td_num::number::Width;

/// The bindings of a definition, as its body is elaborated.
#[derive(Drop)]
pub struct Bindings {
    /// What is known inside the definition, where the next part of its body stands.
    pub scope: Scope,
    /// The names that it has given so far.
    pub taken: Taken,
}

/// The type of a number of a width.
pub fn scalar_of(width: Width) -> Scalar
    ensures { result ≡ scalar_of width }
{
    match width {
        Width::One => Scalar::Eight,
        Width::Two => Scalar::Sixteen,
        Width::Four => Scalar::ThirtyTwo,
        Width::Eight => Scalar::SixtyFour,
    }
}

/// One more local name. `AllocError`: it isn't a local's yet, and out of memory.
pub fn add_local(
    alloc: Global,
    scope: &mut Scope,
    name: &[u8],
    local: Local,
) -> Result<(), AllocError>
    ensures scope { OnOk result (scope.new ≡ with_local scope.old name.now local) }
    ensures unseen { OnErr result (is_some (looked_up scope.old.locals name.now) ≡ false) }
{
    scope.locals.declare(alloc, name, local)
}

/// One more value in scope. `AllocError`: there are 2^32 - 1 of them.
pub fn add_level(scope: &mut Scope) -> Result<(), AllocError>
    ensures more { OnOk result (scope.new ≡ with_level scope.old) }
    ensures full { OnErr result (scope.old.levels ≡ 2 ^ 32 - 1) }
{
    scope.levels = scope.levels.checked_add(1).ok_or(AllocError)?;
    Ok(())
}

/// One more value in scope, by its name. `AllocError`: the name isn't a local's yet, and out of memory, or there are
/// 2^32 - 1 values.
pub fn add_value(
    alloc: Global,
    scope: &mut Scope,
    name: &[u8],
    scalar: Scalar,
    most: u64,
) -> Result<(), AllocError>
    ensures scope { OnOk result (scope.new ≡ with_value scope.old name.now scalar most) }
    ensures cause { OnErr result ((is_some (looked_up scope.old.locals name.now) ≡ false) ⊎ (scope.old.levels ≡ 2 ^ 32 - 1)) }
{
    let level = scope.levels;
    add_local(
        alloc,
        scope,
        name,
        Local::Value {
            level,
            scalar,
            most,
        },
    )?;
    add_level(scope)
}

/// The name of a parameter or a `var` is given. `AllocError`: it wasn't, and out of memory.
pub fn take_name(alloc: Global, taken: &mut Taken, name: &[u8]) -> Result<(), AllocError>
    ensures taken { OnOk result (taken.new ≡ with_outer taken.old name.now) }
    ensures unseen { OnErr result ((is_seen taken.old.outer name.now ≡ false) ⊎ (is_seen taken.old.all name.now ≡ false)) }
{
    taken.outer.see(alloc, name)?;
    taken.all.see(alloc, name)
}

/// The name of a field is given. `AllocError`: it wasn't, and out of memory.
pub fn take_field_name(alloc: Global, taken: &mut Taken, name: &[u8]) -> Result<(), AllocError>
    ensures taken { OnOk result (taken.new ≡ with_field_name taken.old name.now) }
    ensures unseen { OnErr result ((is_seen taken.old.fields name.now ≡ false) ⊎ (is_seen taken.old.all name.now ≡ false)) }
{
    taken.fields.see(alloc, name)?;
    taken.all.see(alloc, name)
}

/// A scope cut back to so many of its names and values. Takes no memory.
pub fn cut_back(scope: &mut Scope, names: usize, levels: u32)
    ensures { scope.new ≡ cut_back names levels scope.old }
{
    scope.locals.truncate(names);
    scope.levels = levels;
}
