//! Laws of flat inputs. They do nothing when they are called.

ghost use Rattle.td_front_flat_facts.specs.Laws.{OneAnswerEach, NoPartIsLost, CountsStay, NamesStayWords, WordsAreSpelledSo, NumberedAreDotted, NamesStayApart};

/// An input is linked, or breaks N2 of parts at one place, or N5 at one place, and no two of these.
pub fn one_answer_each()
    ensures { OneAnswerEach }
{}

/// Where no use of a part is in a cycle, each part is in the order, so each of its definitions is in the flat tree.
pub fn no_part_is_lost()
    ensures { NoPartIsLost }
{}

/// An input that passes no limit by count as it is written passes none flat.
pub fn counts_stay()
    ensures { CountsStay }
{}

/// Where the names of parts and those written in an input are words, each name written in the flat tree is a word, or that of
/// a part's definition: a part's number and a word.
pub fn names_stay_words()
    ensures { NamesStayWords }
{}

/// Where the names of parts are words, and no two are alike: a word is spelled as it stands, a name with a part's number as two
/// words joined by a dot, and no two names are spelled alike.
pub fn names_are_spelled()
    ensures words { WordsAreSpelledSo }
    ensures numbered { NumberedAreDotted }
    ensures apart { NamesStayApart }
{}
