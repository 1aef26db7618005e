//! The module for which a text stands.

ghost use Rattle.std.specs.Prelude.{◌≡◌, ◌<◌, ◌≤◌, ◌-◌, ◌^◌, ◌⊎◌, Err, length, IfOk, IfErr, MatchResult};
ghost use Rattle.td_front.specs.Imports.{Module};
ghost use Rattle.td_lexer.specs.Splits.{Splits, HasToken};
ghost use Rattle.td_front.specs.Checked.{IsChecked};
ghost use Rattle.td_front.specs.Errors.{of_parsing};
ghost use Rattle.td_front.specs.ModuleText.{IsModuleText, IsTextOf, RefusedBy, SpellsTree, beginning_of};
ghost use Rattle.td_front.specs.declared.error.FrontError.{FrontError};

use crate::error::FrontError;
use crate::laws::{modules_are_checked, one_answer_each};
use crate::passes::input_module;
use std::alloc::Global;
use td_ast::parts::InputTree;
use td_ast::token::Token;
use td_core::module::Module;
use td_grammar::laws::{either_form, one_tree};
use td_lexer::{lex, tokens_are_the_splitting};
use td_parser::{ParseError, parse};

/// The module or the parts that a text spells, and the module for which they stand.
#[derive(Drop)]
pub struct CheckedInput {
    pub input: InputTree,
    pub module: Module,
}

/// The module for which a text stands.
///
/// Where it stands for none, the error is the first refusal: of its bytes as tokens, of the tokens as a tree, of the
/// counts of the tree, of the names and uses of its parts, of its names, types, constants and actions, of the kinds of its
/// module, of its operators, or of its sizes; in each of these passes the first in the order of the text, and after the
/// pass over parts the first in their order. `NoMemory`: out of memory for a token or what it
/// became; so it never comes of a text of white space and comments, nor of one that is refused before its first token.
///
/// The module of a text, or none of one that is too long to be asked about:
///
/// ```
/// use std::alloc::Global;
/// use td_core::Module;
/// use td_front::{FrontError, check_module};
///
/// fn module_of(alloc: Global, text: &[u8]) -> Result<Option<Module>, FrontError> {
///     if text.len() >= u32::MAX as usize {
///         return Ok(None);
///     }
///     Ok(Some(check_module(alloc, text)?))
/// }
/// ```
pub fn check_module(alloc: Global, text: &[u8]) -> Result<Module, FrontError>
    requires { length text.now < 2 ^ 32 - 1 }
    // What is answered is the module for which the text stands.
    ensures stands { IfOk result (λ m. IsModuleText text.now m) }
    // A module for which the text stands is answered, unless memory runs out.
    ensures complete { (m : Module) → IsModuleText text.now m → MatchResult result (λ found. found ≡ m) (λ e. e ≡ FrontError.NoMemory) }
    // An error is a refusal of the text, or that there was no memory.
    ensures refused { IfErr result (λ e. (e ≡ FrontError.NoMemory) ⊎ RefusedBy text.now e) }
    // A refusal of the text is answered, unless memory runs out.
    ensures exact { (e : FrontError) → RefusedBy text.now e → MatchResult result (λ m. ⊥) (λ found. (found ≡ e) ⊎ (found ≡ FrontError.NoMemory)) }
    // What holds of each module that is answered.
    ensures checked { IfOk result IsChecked }
    // Memory runs out only where the text begins with a token, after white space and comments.
    ensures memory { result ≡ Err FrontError.NoMemory → HasToken text.now }
{
    match check_input(alloc, text) {
        Ok(checked) => Ok(checked.module),
        Err(error) => Err(error),
    }
}

/// What a text spells, and the module for which it stands; otherwise what `check_module` answers, under the same clauses.
pub fn check_input(alloc: Global, text: &[u8]) -> Result<CheckedInput, FrontError>
    requires { length text.now < 2 ^ 32 - 1 }
    ensures stands { IfOk result (λ found. IsTextOf text.now found.input found.module) }
    ensures complete { (m : Module) → IsModuleText text.now m → MatchResult result (λ found. found.module ≡ m) (λ e. e ≡ FrontError.NoMemory) }
    ensures refused { IfErr result (λ e. (e ≡ FrontError.NoMemory) ⊎ RefusedBy text.now e) }
    ensures exact { (e : FrontError) → RefusedBy text.now e → MatchResult result (λ found. ⊥) (λ found. (found ≡ e) ⊎ (found ≡ FrontError.NoMemory)) }
    ensures checked { IfOk result (λ found. IsChecked found.module) }
    ensures memory { result ≡ Err FrontError.NoMemory → HasToken text.now }
{
    one_answer_each();
    modules_are_checked();
    check_passes(alloc, text)
}

// What the text spells and the module, or the refusal, of which there is but one.
fn check_passes(alloc: Global, text: &[u8]) -> Result<CheckedInput, FrontError>
    requires { length text.now < 2 ^ 32 - 1 }
    ensures stands { IfOk result (λ found. IsTextOf text.now found.input found.module) }
    ensures refused { IfErr result (λ e. (e ≡ FrontError.NoMemory) ⊎ RefusedBy text.now e) }
    ensures memory { result ≡ Err FrontError.NoMemory → HasToken text.now }
{
    let tokens = tokens(alloc, text)?;
    let input = input(alloc, text, tokens.as_slice());
    drop(tokens);
    let input = input?;
    match checked_module(alloc, text, &input) {
        Ok(module) => Ok(CheckedInput { input, module }),
        Err(error) => {
            // Let go where the function ends, its variants would each be a way through the function.
            drop(input);
            Err(error)
        }
    }
}

// The tokens of a text.
fn tokens(alloc: Global, text: &[u8]) -> Result<Vec<Token>, FrontError>
    requires { length text.now < 2 ^ 32 - 1 }
    ensures tokens { IfOk result (λ v. Splits text.now v.items) }
    ensures few { IfOk result (λ v. length v.items ≤ length text.now) }
    ensures refused { IfErr result (λ e. (e ≡ FrontError.NoMemory) ⊎ RefusedBy text.now e) }
    ensures memory { result ≡ Err FrontError.NoMemory → HasToken text.now }
{
    match lex(alloc, text) {
        Ok(tokens) => Ok(tokens),
        Err(error) => Err(FrontError::from(error)),
    }
}

// What the tokens of a text spell.
fn input(alloc: Global, text: &[u8], tokens: &[Token]) -> Result<InputTree, FrontError>
    requires short { length text.now < 2 ^ 32 - 1 }
    requires few { length tokens.now ≤ length text.now }
    requires tokens { Splits text.now tokens.now }
    ensures spelled { IfOk result (λ input. SpellsTree text.now input) }
    ensures refused { IfErr result (λ e. (e ≡ FrontError.NoMemory) ⊎ RefusedBy text.now e) }
    ensures memory { result ≡ Err FrontError.NoMemory → HasToken text.now }
{
    match parse(alloc, tokens) {
        Ok(input) => Ok(input),
        Err(error) => Err(of_parsing(text, tokens, error)),
    }
}

// The module of what a text spells, which passes each pass.
fn checked_module(alloc: Global, text: &[u8], input: &InputTree) -> Result<Module, FrontError>
    requires short { length text.now < 2 ^ 32 - 1 }
    requires spelled { SpellsTree text.now input.now }
    ensures stands { IfOk result (λ m. IsTextOf text.now input.now m) }
    ensures refused { IfErr result (λ e. (e ≡ FrontError.NoMemory) ⊎ RefusedBy text.now e) }
    ensures memory { result ≡ Err FrontError.NoMemory → HasToken text.now }
{
    tokens_are_the_splitting();
    one_tree();
    either_form();
    input_module(alloc, input)
}

// An error of the parser over the tokens of a text, as an error of the whole. Takes no memory.
fn of_parsing(text: &[u8], tokens: &[Token], error: ParseError) -> FrontError
    requires { length text.now < 2 ^ 32 - 1 }
    ensures { result ≡ of_parsing text.now tokens.now error }
{
    match error {
        ParseError::NoMemory => FrontError::NoMemory,
        ParseError::Unexpected { token } => FrontError::Unexpected {
            token,
            at: beginning_of(text, tokens, token),
        },
        ParseError::Deep { token } => FrontError::Deep {
            token,
            at: beginning_of(text, tokens, token),
        },
    }
}

// Where a token begins; the length of the text, where there is none.
fn beginning_of(text: &[u8], tokens: &[Token], token: u32) -> u32
    requires { length text.now < 2 ^ 32 - 1 }
    ensures { result ≡ beginning_of text.now tokens.now token }
{
    match tokens.get(token as usize) {
        Some(token) => token.span.from,
        None => text.len() as u32,
    }
}
