//! Laws of canonical texts. They do nothing when they are called.

ghost use Rattle.td_print_layout.specs.Joining.{PiecesAreSplit};
ghost use Rattle.td_print_layout.specs.Example.{WorkedParts, WorkedText};
ghost use Rattle.td_print_layout.specs.Laws.{KeepsLimits, KeepsSpellings, NamesAreWhole, ReadsBack, SameText};
ghost use Rattle.td_print_layout.specs.ReadBack.{IsReadBack, StaysTidy};

use td_grammar::laws::one_tree;
use td_lexer::tokens_are_the_splitting;

/// The text of pieces that stay apart splits into tokens of their kinds.
pub fn pieces_are_split()
    ensures { PiecesAreSplit }
{}

/// The tokens of a tree's canonical text spell the tree again, its places aside.
pub fn reads_back()
    ensures { ReadsBack }
{}

/// Where a tree was spelled within the limits, the tokens of its canonical text are within the limits too.
pub fn keeps_limits()
    ensures { KeepsLimits }
{}

/// Where each of the tokens that spell a tree can be spelled, so can each of the tree's canonical text.
pub fn keeps_spellings()
    ensures { KeepsSpellings }
{}

/// The canonical text of a small module is what the rules make of it, letter by letter.
pub fn worked_text()
    ensures { WorkedText }
{}

/// The canonical text of three parts is what the rules make of it, letter by letter.
pub fn worked_parts()
    ensures { WorkedParts }
{}

/// The text of a name, qualified or not, is the name.
pub fn names_are_whole()
    ensures { NamesAreWhole }
{}

/// Trees that are equal, places aside, have the same canonical text. So a canonical text stays as it is.
pub fn same_text()
    ensures { SameText }
{}

/// The canonical text of a tree that a text spells within the limits splits into tokens that spell the tree again, its
/// places aside, within the limits; so `lex` and `parse` read it.
pub fn canonical_texts_read_back()
    ensures { IsReadBack }
{
    pieces_are_split();
    reads_back();
    keeps_limits();
    keeps_spellings();
}

/// What is tidy stays as it is: the tree that a canonical text spells has this same canonical text.
pub fn canonical_texts_stay()
    ensures { StaysTidy }
{
    canonical_texts_read_back();
    same_text();
    one_tree();
    tokens_are_the_splitting();
}
