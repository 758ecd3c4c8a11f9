// Rules of hints: what holds of a token that can't stand where it does, and what is told of it then.

use crate::kinds::has;
use crate::spots::{Spot, are_joined};
use task_parser::{Kind, Token};

/// What holds of a token, or of what stands around it. Where kinds are given, one of them is meant, and any number for a number.
#[derive(Clone, Copy)]
pub enum Test {
    /// There is a token, and not the end of the program.
    Stands,
    /// The token is of this kind.
    Is(Kind),
    /// The token.
    This(&'static [Kind]),
    /// The token before it.
    Before(&'static [Kind]),
    /// The token before that.
    Second(&'static [Kind]),
    /// The token that stands four before it.
    Fourth(&'static [Kind]),
    /// The token after it.
    After(&'static [Kind]),
    /// The first token of the statement before it.
    First(&'static [Kind]),
    /// This kind could stand here.
    Has(Kind),
    /// This kind could not stand here.
    Lacks(Kind),
    /// Only this kind could stand here.
    Wants(Kind),
    /// Only an index of a lock or of a record could stand here.
    Index,
    /// The token stands in the line of the one before it.
    Beside,
    /// It does not.
    Apart,
    /// The token stands right after the one before it.
    Joined,
    /// The next token stands right after this one.
    JoinedAfter,
    /// The next token but one does not stand right after the next.
    Spaced,
    /// No task stands before the token.
    InHead,
    /// The token before this one is the name of a feed.
    FeedBefore,
    /// The token that stands three before this one is the name of a feed.
    FeedCell,
    /// A block begins here, in this language or in others, where a statement or a head could end.
    Opens,
    /// The `else` before this token is that of a `when`.
    ElseOfWhen,
    /// An `into` could stand here, and does not.
    LacksInto,
    /// A statement begins here.
    Begins,
}

/// What has to hold, all of it, and what is told then.
pub type Rule = (&'static [Test], &'static [u8]);

// A kind, and of all numbers one.
fn sample(kind: Kind) -> Kind {
    match kind {
        Kind::Num(_) => Kind::Num(1),
        _ => kind,
    }
}

// Whether there is a token, and it is of one of the kinds.
fn is_any(token: Option<&Token>, kinds: &[Kind]) -> bool {
    match token {
        Some(token) => has(kinds, sample(token.kind)),
        None => false,
    }
}

impl<'a> Spot<'a> {
    // Whether the next token but one does not stand right after the next.
    fn is_spaced(&self) -> bool {
        let next = self.place.number.saturating_add(2);
        !are_joined(self.after(), self.place.tokens.get(next))
    }

    // Whether this holds.
    fn holds(&self, test: Test) -> bool {
        match test {
            Test::Stands => self.back(0).is_some(),
            Test::Is(kind) => is_any(self.back(0), &[kind]),
            Test::This(kinds) => is_any(self.back(0), kinds),
            Test::Before(kinds) => is_any(self.back(1), kinds),
            Test::Second(kinds) => is_any(self.back(2), kinds),
            Test::Fourth(kinds) => is_any(self.back(4), kinds),
            Test::After(kinds) => is_any(self.after(), kinds),
            Test::First(kinds) => is_any(self.first(), kinds),
            Test::Has(kind) => self.has(kind),
            Test::Lacks(kind) => !self.has(kind),
            Test::Wants(kind) => self.wants(kind),
            Test::Index => self.wants_index(),
            Test::Beside => self.is_beside(),
            Test::Apart => !self.is_beside(),
            Test::Joined => self.is_joined(),
            Test::JoinedAfter => are_joined(self.back(0), self.after()),
            Test::Spaced => self.is_spaced(),
            Test::InHead => !self.is_after_task(),
            Test::FeedBefore => self.is_feed(self.bytes(self.back(1))),
            Test::FeedCell => self.is_feed(self.bytes(self.back(3))),
            Test::Opens => self.opens(),
            Test::ElseOfWhen => self.is_in_else_of_when(),
            Test::LacksInto => self.lacks_into(),
            Test::Begins => self.begins_statement(),
        }
    }

    // Whether all of this holds.
    fn fits(&self, tests: &[Test]) -> bool {
        for test in tests {
            if !self.holds(*test) {
                return false;
            }
        }
        true
    }

    /// What the first rule tells that fits.
    pub fn told(&self, rules: &[Rule]) -> Option<&'static [u8]> {
        for (tests, told) in rules {
            if self.fits(tests) {
                return Some(told);
            }
        }
        None
    }
}
