ghost use Rattle.std.specs.Prelude.{◌≡◌, ◌^◌, ◌<◌, ◌==◌, [], ◌∷◌, MatchOption, bit_and, bit_or, nat_lt};
ghost use Rattle.kits.specs.Labels.{has_member};
ghost use Rattle.sheets.specs.Outcomes.{without};
ghost use Rattle.sheets.specs.Sets.{members};

use kits::members::has_member;

// A set of rules, bit r standing for rule r.
#[derive(Clone, Copy, PartialEq, Eq, Debug)]
pub(crate) struct RuleSet {
    pub(crate) bits: u64,
}

impl RuleSet {
    // The set of no rule.
    pub(crate) fn none() -> RuleSet
        ensures { result.bits ≡ 0 }
    {
        RuleSet { bits: 0 }
    }

    // The set of one rule.
    pub(crate) fn only(rule: u32) -> RuleSet
        requires { rule < 64 }
        ensures { result.bits ≡ 2 ^ rule }
    {
        RuleSet { bits: 1 << rule }
    }

    // Is the rule in the set?
    pub(crate) fn has(self, rule: u32) -> bool
        ensures { result ≡ has_member self.bits rule }
    {
        has_member(self.bits, rule)
    }

    // The rules of either set.
    pub(crate) fn union(self, other: RuleSet) -> RuleSet
        ensures { result.bits ≡ bit_or self.bits other.bits }
    {
        RuleSet {
            bits: self.bits | other.bits,
        }
    }

    // The rules that are not in the other set.
    pub(crate) fn without(self, other: RuleSet) -> RuleSet
        ensures { result.bits ≡ without self.bits other.bits }
    {
        RuleSet {
            bits: self.bits ^ (self.bits & other.bits),
        }
    }

    // Are all rules of the set below the count?
    pub(crate) fn is_below(self, count: u8) -> bool
        ensures { result ≡ nat_lt self.bits (2 ^ count) }
    {
        count >= 64 || self.bits >> count == 0
    }

    // Is no rule in both sets?
    pub(crate) fn is_disjoint(self, other: RuleSet) -> bool
        ensures { result ≡ (bit_and self.bits other.bits == 0) }
    {
        self.bits & other.bits == 0
    }

    // Takes the lowest rule off, if there is one.
    pub(crate) fn pop_lowest(&mut self) -> Option<u8>
        ensures { MatchOption result (members self.old.bits ≡ []) (λ r. members self.old.bits ≡ r ∷ members self.new.bits) }
    {
        if self.bits == 0 {
            return None;
        }
        let lowest = self.bits.trailing_zeros() as u8;
        self.bits &= self.bits - 1;
        Some(lowest)
    }
}
