ghost use Rattle.std.specs.Prelude.{◌≡◌, ℕ, ◌<◌, Bool, true, not, List, length, IfSome};
ghost use Rattle.std.specs.Option.{option_map};
ghost use Rattle.std.proofs.lemmas.Bool.{or_left};
ghost use Rattle.catalogue.specs.Listed.{rule_in};
ghost use Rattle.rule_books.specs.Exact.{found_label, exact};
ghost use Rattle.rule_books.specs.Listed.{listed};
ghost use Rattle.rule_books.specs.Rules.{some_empty, is_row, goes, spares};

use super::labelled::Labelled;
use super::members::has;
use crate::listed::Listed;
use kits::label::Label;

// Which parts are wanted in the slots of a rule, where none of these is empty.
pub(crate) trait Wants {
    ghost passes: { List (List ℕ) → List ℕ → Bool };

    // What the label at a place keeps.
    fn kept(labelled: &Labelled, place: usize) -> u16
        requires { place < length (listed labelled.now.labels) }
        ensures { result ≡ found_label (passes (rule_in labelled.now.rule.cells).rows) (listed labelled.now.labels) place };

    ghost empty: { (rows : List (List ℕ)) (g : List ℕ) → some_empty g ≡ true → passes rows g ≡ true };
}

// The parts are to be a row.
pub(crate) struct Goes;

impl Wants for Goes {
    ghost passes = { goes };

    ghost empty = { λ rows g e. or_left (some_empty g) (is_row rows g) e };

    fn kept(labelled: &Labelled, place: usize) -> u16 {
        let labels = labelled.labels.as_slice();
        if labelled.other_empty(place) {
            return labels[place];
        }
        labelled.rule.supports(labels, place, labels[place] & 1)
    }
}

// The parts are to be no row.
pub(crate) struct Spares;

impl Wants for Spares {
    ghost passes = { spares };

    ghost empty = { λ rows g e. or_left (some_empty g) (not (is_row rows g)) e };

    fn kept(labelled: &Labelled, place: usize) -> u16 {
        let label = labelled.labels.as_slice()[place];
        if labelled.other_empty(place) {
            return label;
        }
        let mut found = label & 1;
        let mut alone = *labelled;
        for v in 1..16u16 {
            if has(label, v) && alone.spares_alone(place, v) {
                found |= 1 << v;
            }
        }
        found
    }
}

impl<'a> Labelled<'a> {
    // Narrowed to the wanted parts, or none where no choice of parts passes.
    #[inline(always)]
    pub(crate) fn narrowed<W: Wants>(&self) -> Option<Labelled<'a>>
        ensures rule { IfSome result (λ x. x.rule ≡ self.now.rule) }
        ensures labels { option_map (λ x. listed x.labels) result ≡ exact (W.passes (rule_in self.now.rule.cells).rows) (listed self.now.labels) }
    {
        if self.only_empty() {
            return Some(*self);
        }
        let mut labels = Listed::none();
        // By the place: what is kept there is asked of all the labels.
        for place in 0..self.rule.cells.slots.len() {
            let label = Label::new(W::kept(self, place))?;
            labels.push(label.bits());
        }
        Some(Labelled {
            rule: self.rule,
            labels,
        })
    }
}
