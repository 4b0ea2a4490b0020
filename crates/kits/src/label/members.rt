ghost use Rattle.std.specs.Prelude.{◌≡◌, ◌==◌, bit_and, count_ones};
ghost use Rattle.std.specs.Option.{option_map};
ghost use Rattle.kits.specs.Labels.{has_member, least, low, others, if_any};
ghost use Rattle.kits.specs.Laws.{LowestMember, Met, LowestSplit};

use super::Label;
use crate::members::has_member;

impl Label {
    // Is the number a member?
    pub fn has(self, number: u32) -> bool
        ensures { result ≡ has_member self.bits number }
    {
        has_member(u64::from(self.bits), number)
    }

    // How many members there are.
    pub fn members(self) -> u32
        ensures { result ≡ count_ones self.bits }
    {
        self.bits.count_ones()
    }

    // Is there one member only?
    pub fn is_single(self) -> bool
        ensures { result ≡ (count_ones self.bits == 1) }
    {
        self.members() == 1
    }

    // The lowest member.
    #[tactic(auto, using(crate::proofs::LabelLaws::least_at, crate::proofs::LabelLaws::lowest_member))]
    pub fn lowest(self) -> u8
        ensures value { result ≡ least self.bits }
        ensures law { LowestMember }
    {
        self.bits.trailing_zeros() as u8
    }

    // The members of both labels, if there are any.
    #[tactic(auto, using(crate::proofs::LabelLaws::met))]
    pub fn meet(self, other: Label) -> Option<Label>
        ensures value { option_map (λ l. l.bits) result ≡ if_any (bit_and self.bits other.bits) }
        ensures law { Met }
    {
        Label::new(self.bits & other.bits)
    }

    // The lowest member alone, and the others, if there are any.
    pub fn split_lowest(self) -> (Label, Option<Label>)
        ensures first { result.0.bits ≡ low self.bits }
        ensures second { option_map (λ l. l.bits) result.1 ≡ if_any (others self.bits) }
        ensures law { LowestSplit }
    {
        let others = self.bits & (self.bits - 1);
        let low = Label {
            bits: self.bits - others,
        };
        (low, Label::new(others))
    }
}
