ghost use Rattle.std.specs.Prelude.{◌≡◌, Some};
ghost use Rattle.sheets.specs.Refusals.{number_of, refusal_text};

use std::error::Error;
use std::fmt;

// The question of a call that was answered "no".
#[derive(Clone, Copy, PartialEq, Eq, Debug)]
pub enum Refusal {
    SearchOpen = 20,
    NoSearch = 21,
    NoRule = 22,
    RuleGone = 23,
    RuleInForce = 24,
    RuleNotInForce = 25,
    SlotUnused = 26,
    PartNotOffered = 27,
    SlotStandard = 28,
    OtherMark = 29,
    UnlawfulSets = 30,
    BudgetOutOfRange = 31,
}

impl Refusal {
    // The number that clubs know the refusal by.
    pub fn number(self) -> u8
        ensures { result ≡ number_of self }
    {
        self as u8
    }
}

impl fmt::Display for Refusal {
    ghost output = { λ refusal. Some (refusal_text refusal) };

    fn fmt<W: fmt::Write>(&self, f: &mut fmt::Formatter<W>) -> fmt::Result {
        let number = self.number();
        write!(f, "refused by {number}")
    }
}

impl Error for Refusal {}
