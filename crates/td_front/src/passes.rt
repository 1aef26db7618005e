//! The passes over an input, its one tree and its module, each with the refusals that are its own.

ghost use Rattle.std.specs.Prelude.{◌≡◌, ◌⊎◌, ◌<◌, ◌^◌, None, Err, length, OnOk, IfOk, IfErr};
ghost use Rattle.td_ast.specs.declared.parts.InputTree.TheVariants as InputTree;
ghost use Rattle.td_front_flat.specs.Flat.{flat, written, spelled_names, IsLinked};
ghost use Rattle.td_limits.specs.Counts.{counts_passed};
ghost use Rattle.td_front.specs.Passes.{HasCounts, HasModule, HasKinds, HasSafety, IsAdmitted, RefusesTree};
ghost use Rattle.td_front.specs.Inputs.{HasInputCounts, HasFewParts, IsAdmittedInput, IsFilled, RefusedByCounts, RefusedByParts, RefusesInput, with_names, input_module};
ghost use Rattle.td_front.specs.declared.error.FrontError.{FrontError};
ghost use Rattle.td_elab_rules.specs.Modules.{module_of};

use crate::error::FrontError;
use crate::spelled::spelled_module;
use std::alloc::Global;
use td_arith::modules::arith;
use td_ast::definitions::ModuleTree;
use td_ast::parts::{InputTree, PartTree};
use td_core::module::Module;
use td_elab::elaborate::elaborate;
use td_front_flat::flatten::flat_parts;
use td_front_flat_facts::laws::counts_stay;
use td_kinds::modules::kinds;
use td_limits::{Excess, counts_passed, counts_passed_in, sizes_passed};

/// The first limit by count that an input passes, in the order of the text. Takes no memory.
fn input_counts_passed(input: &InputTree) -> Option<Excess>
    ensures { result ≡ counts_passed (written input.now) }
{
    match input {
        InputTree::Module(tree) => counts_passed(tree),
        InputTree::Parts(parts) => counts_passed_in(parts.as_slice()),
    }
}

/// Tests the limits of an input by count: X1. Takes no memory.
fn check_counts(input: &InputTree) -> Result<(), FrontError>
    ensures ok { OnOk result (HasInputCounts input.now) }
    ensures err { IfErr result (RefusedByCounts input.now) }
{
    match input_counts_passed(input) {
        None => Ok(()),
        Some(excess) => Err(FrontError::from(excess)),
    }
}

/// The one tree of parts: N2 of parts, N5. `NoMemory`: out of memory for it.
fn flat(alloc: Global, parts: &[PartTree]) -> Result<ModuleTree, FrontError>
    requires { length parts.now < 2 ^ 32 }
    ensures linked { OnOk result (IsLinked (InputTree.Parts parts.now)) }
    ensures tree { IfOk result (λ tree. tree ≡ flat (InputTree.Parts parts.now)) }
    ensures err { IfErr result (λ e. (e ≡ FrontError.NoMemory) ⊎ RefusedByParts (InputTree.Parts parts.now) e) }
{
    match flat_parts(alloc, parts) {
        Ok(tree) => Ok(tree),
        Err(error) => Err(FrontError::from(error)),
    }
}

/// The module for which a tree stands: N1 to N4, Y1 to Y4. `NoMemory`: there is a definition, and there was no memory for the
/// module.
fn module_of(alloc: Global, tree: &ModuleTree) -> Result<Module, FrontError>
    requires { HasCounts tree.now }
    ensures ok { OnOk result (HasModule tree.now) }
    ensures value { IfOk result (λ m. m ≡ module_of tree.now) }
    ensures err { IfErr result (λ e. (e ≡ FrontError.NoMemory) ⊎ RefusesTree tree.now e) }
    ensures memory { result ≡ Err FrontError.NoMemory → 0 < length tree.now.definitions }
{
    match elaborate(alloc, tree) {
        Ok(module) => Ok(module),
        Err(error) => Err(FrontError::from(error)),
    }
}

/// Tests the kinds of a tree's module: K1, K2. `NoMemory`: there is a definition, and there was no memory for its kind.
fn check_kinds(alloc: Global, tree: &ModuleTree, m: &Module) -> Result<(), FrontError>
    requires stands { HasModule tree.now }
    requires m { m.now ≡ module_of tree.now }
    ensures ok { OnOk result (HasKinds tree.now) }
    ensures err { IfErr result (λ e. (e ≡ FrontError.NoMemory) ⊎ RefusesTree tree.now e) }
    ensures memory { result ≡ Err FrontError.NoMemory → 0 < length tree.now.definitions }
{
    match kinds(alloc, m) {
        Ok(_) => Ok(()),
        Err(error) => Err(FrontError::from(error)),
    }
}

/// Tests the operators and copies of a tree's module: A1, A2. `NoMemory`: there is a definition, and there was no memory to look at it.
fn check_safety(alloc: Global, tree: &ModuleTree, m: &Module) -> Result<(), FrontError>
    requires kinds { HasKinds tree.now }
    requires m { m.now ≡ module_of tree.now }
    ensures ok { OnOk result (HasSafety tree.now) }
    ensures err { IfErr result (λ e. (e ≡ FrontError.NoMemory) ⊎ RefusesTree tree.now e) }
    ensures memory { result ≡ Err FrontError.NoMemory → 0 < length tree.now.definitions }
{
    match arith(alloc, m) {
        Ok(()) => Ok(()),
        Err(error) => Err(FrontError::from(error)),
    }
}

/// Tests the limits of a tree by size: X1. `NoMemory`: there is a definition, and there was no memory for its name.
fn check_sizes(alloc: Global, tree: &ModuleTree) -> Result<(), FrontError>
    requires { HasSafety tree.now }
    ensures ok { OnOk result (IsAdmitted tree.now) }
    ensures err { IfErr result (λ e. (e ≡ FrontError.NoMemory) ⊎ RefusesTree tree.now e) }
    ensures memory { result ≡ Err FrontError.NoMemory → 0 < length tree.now.definitions }
{
    match sizes_passed(alloc, tree) {
        Ok(None) => Ok(()),
        Ok(Some(excess)) => Err(FrontError::from(excess)),
        Err(_) => Err(FrontError::NoMemory),
    }
}

/// Tests all that is tested of a tree's module and after it. `NoMemory`: there is a definition, and out of memory.
fn check_found(alloc: Global, tree: &ModuleTree, m: &Module) -> Result<(), FrontError>
    requires stands { HasModule tree.now }
    requires m { m.now ≡ module_of tree.now }
    ensures ok { OnOk result (IsAdmitted tree.now) }
    ensures err { IfErr result (λ e. (e ≡ FrontError.NoMemory) ⊎ RefusesTree tree.now e) }
    ensures memory { result ≡ Err FrontError.NoMemory → 0 < length tree.now.definitions }
{
    check_kinds(alloc, tree, m)?;
    check_safety(alloc, tree, m)?;
    check_sizes(alloc, tree)
}

// Where a tree or a module is let go, each way through its variants is a way through the function. So it is let go by a call.

/// The module of a tree that passes the passes after the counts. `NoMemory`: there is a definition, and out of memory.
fn tree_module(alloc: Global, tree: &ModuleTree) -> Result<Module, FrontError>
    requires { HasCounts tree.now }
    ensures admitted { OnOk result (IsAdmitted tree.now) }
    ensures value { IfOk result (λ m. m ≡ module_of tree.now) }
    ensures err { IfErr result (λ e. (e ≡ FrontError.NoMemory) ⊎ RefusesTree tree.now e) }
    ensures memory { result ≡ Err FrontError.NoMemory → 0 < length tree.now.definitions }
{
    let found = module_of(alloc, tree)?;
    match check_found(alloc, tree, &found) {
        Ok(()) => Ok(found),
        Err(error) => {
            drop(found);
            Err(error)
        }
    }
}

// The module of parts, from that of their one tree.
fn with_spelled_names(
    alloc: Global,
    parts: &[PartTree],
    found: Module,
) -> Result<Module, FrontError>
    ensures value { IfOk result (λ m. m ≡ with_names (spelled_names (InputTree.Parts parts.now) found.names) found) }
    ensures err { IfErr result (λ e. e ≡ FrontError.NoMemory) }
{
    match spelled_module(alloc, parts, found) {
        Ok(told) => Ok(told),
        Err(_) => Err(FrontError::NoMemory),
    }
}

/// The module of parts that pass no limit by count. `NoMemory`: out of memory.
fn parts_module(alloc: Global, parts: &[PartTree]) -> Result<Module, FrontError>
    requires few { length parts.now < 2 ^ 32 }
    requires counts { HasInputCounts (InputTree.Parts parts.now) }
    ensures admitted { OnOk result (IsAdmittedInput (InputTree.Parts parts.now)) }
    ensures value { IfOk result (λ m. m ≡ input_module (InputTree.Parts parts.now)) }
    ensures err { IfErr result (λ e. (e ≡ FrontError.NoMemory) ⊎ RefusesInput (InputTree.Parts parts.now) e) }
{
    counts_stay();
    let tree = flat(alloc, parts)?;
    let found = tree_module(alloc, &tree);
    drop(tree);
    with_spelled_names(alloc, parts, found?)
}

/// The module of an input that is admitted, or its refusal. `NoMemory`: there is a part or a definition, and out of memory.
pub(crate) fn input_module(alloc: Global, input: &InputTree) -> Result<Module, FrontError>
    requires { HasFewParts input.now }
    ensures admitted { OnOk result (IsAdmittedInput input.now) }
    ensures value { IfOk result (λ m. m ≡ input_module input.now) }
    ensures err { IfErr result (λ e. (e ≡ FrontError.NoMemory) ⊎ RefusesInput input.now e) }
    ensures memory { result ≡ Err FrontError.NoMemory → IsFilled input.now }
{
    check_counts(input)?;
    match input {
        InputTree::Module(tree) => tree_module(alloc, tree),
        InputTree::Parts(parts) => parts_module(alloc, parts.as_slice()),
    }
}
