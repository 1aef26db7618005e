//! The first of the breaches that were noted so far.

ghost use Rattle.std.specs.Prelude.{◌≡◌, None};
ghost use Rattle.td_elab_rules.specs.Breach.{is_sooner, sooner, rank, first_of, when};

use td_ast::token::Span;
use td_elab_rules::breach::{Breach, Rule};

/// The place of a rule in the order in which rules are named at one place, from 0.
fn rank(rule: Rule) -> u8
    ensures { result ≡ rank rule }
{
    match rule {
        Rule::Unknown => 0,
        Rule::Twice => 1,
        Rule::NotReadable => 2,
        Rule::WrongArgs => 3,
        Rule::Mismatch => 4,
        Rule::Narrowing => 5,
        Rule::NotConstant => 6,
        Rule::BadAction => 7,
    }
}

/// Whether a breach is named before another one: the earlier place first, then the order of the rules.
fn is_sooner(breach: Breach, other: Breach) -> bool
    ensures { result ≡ is_sooner breach other }
{
    let (one, two) = (breach.span, other.span);
    if one.from != two.from {
        return one.from < two.from;
    }
    let (first, second) = (rank(breach.rule), rank(other.rule));
    if first != second {
        first < second
    } else {
        one.to < two.to
    }
}

/// The first of the breaches that were noted so far.
#[derive(Clone, Copy, PartialEq, Eq)]
pub struct Findings {
    pub first: Option<Breach>,
}

impl Findings {
    /// Nothing was noted.
    pub fn new() -> Findings
        ensures { result.first ≡ None }
    {
        Findings { first: None }
    }

    /// One more breach.
    pub fn note(&mut self, rule: Rule, span: Span)
        ensures { self.new.first ≡ sooner self.old.first (record { rule = rule; span = span }) }
    {
        let breach = Breach { rule, span };
        match self.first {
            Some(first) => {
                if is_sooner(breach, first) {
                    self.first = Some(breach);
                }
            }
            None => self.first = Some(breach),
        }
    }

    /// One more breach where the test holds.
    pub fn note_if(&mut self, test: bool, rule: Rule, span: Span)
        ensures { self.new.first ≡ first_of self.old.first (when test rule span) }
    {
        if test {
            self.note(rule, span);
        }
    }
}
