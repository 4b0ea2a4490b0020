ghost use Rattle.std.specs.Prelude.{◌≡◌};
ghost use Rattle.club_example.specs.Matches.{matched_allows, matched_narrowed, Matching};
ghost use Rattle.club_example.specs.MatchLaws.{match_laws};

use super::Matched;
use kits::book::Book;
use kits::label_box::LabelBox;
use kits::slot_number::SlotNumber;

const RULES: u8 = 1;

impl Matched {
    // The book that matches these two slots.
    #[tactic(auto, using(crate::specs::MatchLaws::matching))]
    pub fn new(one: SlotNumber, other: SlotNumber) -> Matched
        ensures first { result.one ≡ one }
        ensures second { result.other ≡ other }
        ensures law { Matching one.number other.number }
    {
        Matched { one, other }
    }
}

impl Book for Matched {
    ghost rules = { λ s. 1 };

    ghost allows = { λ s. matched_allows s.one.number s.other.number };

    ghost narrowed = { λ s. matched_narrowed s.one.number s.other.number };

    ghost points = { λ s. match_laws s.one.number s.other.number s.one.within s.other.within };

    fn count(&self) -> u8 {
        RULES
    }

    fn narrow(&self, rule: u8, b: &LabelBox) -> Option<LabelBox> {
        let mut narrowed = *b;
        if rule == 0 {
            let both = b.label(self.one).meet(b.label(self.other))?;
            narrowed.put(self.one, both);
            narrowed.put(self.other, both);
        }
        Some(narrowed)
    }
}
