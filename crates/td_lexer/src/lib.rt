//! The tokens of a module text. The layer above rests on one promise: `lex` answers exactly the tokens into which the
//! text splits by the rules of the language, each with its span, or the first place where it splits no further, and why.
#![tactic(auto)]

mod bytes;
mod comments;
mod error;
mod keywords;
mod laws;
mod lexeme;
mod lexing;
mod numbers;
mod punctuation;
mod table;

pub use error::LexError;
pub use keywords::is_keyword;
pub use laws::tokens_are_the_splitting;
pub use lexing::lex;
