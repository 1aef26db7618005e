//! Why tokens have no tree.

/// Why tokens have no tree.
#[derive(Clone, Copy, PartialEq, Eq)]
pub enum ParseError {
    /// The place of the first token, from 0, up to and with which no module begins so; the count of the tokens, where
    /// they end too early.
    Unexpected { token: u32 },
    /// The place of the first token, from 0, that may stand there and passes a limit: the 257th operator or opening
    /// parenthesis of its whole expression, or the 17th open brace in an action.
    Deep { token: u32 },
    /// There was no memory.
    NoMemory,
}
