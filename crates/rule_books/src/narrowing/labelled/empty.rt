ghost use Rattle.std.specs.Prelude.{◌≡◌};
ghost use Rattle.rule_books.specs.Listed.{listed};
ghost use Rattle.rule_books.specs.Narrowing.{other_empty, only_empty};

use super::Labelled;
use crate::narrowing::members::has;

impl Labelled<'_> {
    // Can a slot be empty, other than the one at the place?
    #[inline(always)]
    pub(crate) fn other_empty(&self, place: usize) -> bool
        ensures { result ≡ other_empty (listed self.now.labels) place }
    {
        self.labels
            .as_slice()
            .iter()
            .enumerate()
            .any(|(j, label)| j != place && has(*label, 0))
    }

    // Can some slot only be empty?
    #[inline(always)]
    pub(crate) fn only_empty(&self) -> bool
        ensures { result ≡ only_empty (listed self.now.labels) }
    {
        self.labels.as_slice().iter().any(|label| *label == 1)
    }
}
