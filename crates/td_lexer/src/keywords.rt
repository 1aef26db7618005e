//! Keywords and names.

ghost use Rattle.std.specs.Prelude.{◌≡◌, IfOk, OnErr};
ghost use Rattle.td_lexer.specs.Spellings.{kind_in, definition_words, expression_words, number_types, keyword_kind};
ghost use Rattle.td_lexer.specs.Spellings as spellings;
ghost use Rattle.td_lexer.specs.Scanner as scanner;
ghost use Rattle.td_lexer.specs.ScanSteps.{IsNameKind, HoldsName};

use crate::bytes::word_run;
use crate::lexeme::Lexeme;
use crate::table::{is, spelled};
use std::alloc::{AllocError, Global};
use td_ast::token::TokenKind;
use td_num::number::{ByteOrder, NumberType, Width};
use td_num::text::Text;

/// The keyword of definitions or types that a word is.
fn definition_word(word: &[u8]) -> Option<TokenKind>
    ensures { result ≡ kind_in definition_words word.now }
{
    spelled! {
        word;
        b"typedef" => TokenKind::Typedef,
        b"struct" => TokenKind::Struct,
        b"casetype" => TokenKind::Casetype,
        b"enum" => TokenKind::Enum,
        b"switch" => TokenKind::Switch,
        b"case" => TokenKind::Case,
        b"default" => TokenKind::Default,
        b"entrypoint" => TokenKind::Entrypoint,
        b"output" => TokenKind::Output,
        b"where" => TokenKind::Where,
        b"mutable" => TokenKind::Mutable,
        b"unit" => TokenKind::Unit,
        b"all_bytes" => TokenKind::AllBytes,
        b"all_zeros" => TokenKind::AllZeros,
    }
}

/// The keyword of expressions or actions that a word is.
fn expression_word(word: &[u8]) -> Option<TokenKind>
    ensures { result ≡ kind_in expression_words word.now }
{
    spelled! {
        word;
        b"sizeof" => TokenKind::Sizeof,
        b"this" => TokenKind::This,
        b"if" => TokenKind::If,
        b"else" => TokenKind::Else,
        b"return" => TokenKind::Return,
        b"abort" => TokenKind::Abort,
        b"var" => TokenKind::Var,
        b"field_pos" => TokenKind::FieldPos,
        b"field_ptr" => TokenKind::FieldPtr,
        b"is_range_okay" => TokenKind::IsRangeOkay,
        b"true" => TokenKind::True,
        b"false" => TokenKind::False,
        b"PUINT8" => TokenKind::Pointer,
    }
}

/// A kind of token for a number type.
fn number(width: Width, order: ByteOrder) -> TokenKind
    ensures { result ≡ spellings.number width order }
{
    TokenKind::Int(NumberType { width, order })
}

/// The number type that a word names.
fn number_type(word: &[u8]) -> Option<TokenKind>
    ensures { result ≡ kind_in number_types word.now }
{
    spelled! {
        word;
        b"UINT8" => number(Width::One, ByteOrder::LittleEndian),
        b"UINT8BE" => number(Width::One, ByteOrder::BigEndian),
        b"UINT16" => number(Width::Two, ByteOrder::LittleEndian),
        b"UINT16BE" => number(Width::Two, ByteOrder::BigEndian),
        b"UINT32" => number(Width::Four, ByteOrder::LittleEndian),
        b"UINT32BE" => number(Width::Four, ByteOrder::BigEndian),
        b"UINT64" => number(Width::Eight, ByteOrder::LittleEndian),
        b"UINT64BE" => number(Width::Eight, ByteOrder::BigEndian),
    }
}

/// The keyword that a word is.
fn keyword(word: &[u8]) -> Option<TokenKind>
    ensures { result ≡ keyword_kind word.now }
{
    match definition_word(word) {
        Some(kind) => Some(kind),
        None => match expression_word(word) {
            Some(kind) => Some(kind),
            None => number_type(word),
        },
    }
}

/// Whether a word is a keyword, and so no name.
pub fn is_keyword(word: &[u8]) -> bool
    ensures { result ≡ spellings.is_keyword word.now }
{
    keyword(word).is_some()
}

/// The token that a word is: a keyword, or else a name. `AllocError`: it is a name, and out of memory.
fn word_kind(alloc: Global, word: &[u8]) -> Result<TokenKind, AllocError>
    ensures kind { IfOk result (λ kind. kind ≡ scanner.word_kind word.now) }
    ensures memory { OnErr result (IsNameKind (scanner.word_kind word.now)) }
{
    match keyword(word) {
        Some(kind) => Ok(kind),
        None => Ok(TokenKind::Name(Text::copy_of(alloc, word)?)),
    }
}

/// The word at the beginning of bytes, of which the first is a letter. `AllocError`: it is a name, and there was no memory
/// for it.
#[tactic(auto, unfolding(crate::specs::Scanner::word_lexeme))]
pub(crate) fn word_lexeme(alloc: Global, bytes: &[u8]) -> Result<Lexeme, AllocError>
    ensures lexeme { IfOk result (λ lexeme. lexeme ≡ scanner.word_lexeme bytes.now) }
    ensures memory { OnErr result (HoldsName (scanner.word_lexeme bytes.now)) }
{
    let len = word_run(bytes);
    Ok(Lexeme::Token(word_kind(alloc, &bytes[..len])?, len))
}
