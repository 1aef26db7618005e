//! Limits of the language, each of which keeps a reader's recursion shallow.

/// The most operators and opening parentheses of a whole expression. Of `?` and `:` the first is an operator.
pub const OPERATORS: u32 = 256;

/// The most braces that are open at one time in an action, its own first one aside.
pub const BRACES: u32 = 16;
