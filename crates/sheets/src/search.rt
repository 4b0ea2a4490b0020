ghost use Rattle.std.specs.Prelude.{◌≡◌, true};
ghost use Rattle.sheets.specs.Stacks.{waiting_boxes, stacked};

use crate::rule_set::RuleSet;
use arrayvec::ArrayVec;
use kits::book::Book;
use kits::filling::Filling;
use kits::label_box::LabelBox;
use narrowing::narrow_by_all;

mod narrowing;

// How a search stands: not ended, or ended with a kit or with none.
#[derive(Clone, Copy, PartialEq, Eq, Debug)]
pub enum End {
    Paused,
    Kit(Filling),
    NoKit,
}

// A search: its waiting boxes, the first of them last, and how it stands.
#[derive(Drop)]
pub(crate) struct Search {
    boxes: ArrayVec<LabelBox, 25>,
    end: End,
    ghost room: { stacked (waiting_boxes boxes.items) ≡ true },
}

impl Search {
    ghost use Rattle.std.specs.Prelude.{◌≤◌, [], ◌∷◌, length, MatchOption};
    ghost use Rattle.std.specs.List.{slice_get};
    ghost use Rattle.std.specs.Option.{option_map};
    ghost use Rattle.kits.specs.Boxes.{settled};
    ghost use Rattle.sheets.specs.declared.search.End.TheVariants.{Paused};
    ghost use Rattle.sheets.specs.Runs.{started, run, made, ended};
    ghost use Rattle.sheets.specs.Searches.{SearchRight};
    ghost use Rattle.sheets.specs.Sets.{members};
    ghost use Rattle.sheets.specs.States.{standing_of, state_of};
    ghost use Rattle.sheets.specs.Steps.{put_back, without_kit, stepped};

    // The search over a box, before its first step.
    pub(crate) fn start(b: LabelBox) -> Search
        ensures { state_of result ≡ started b.labels }
    {
        let mut boxes = ArrayVec::new();
        boxes.push(b);
        Search {
            boxes,
            end: End::Paused,
        }
    }

    // How the search stands.
    pub(crate) fn end(&self) -> End
        ensures { result ≡ self.now.end }
    {
        self.end
    }

    // How many boxes wait.
    pub(crate) fn count(&self) -> usize
        ensures value { result ≡ length (state_of self.now).boxes }
        ensures few { result ≤ 25 }
    {
        self.boxes.len()
    }

    // The first of the waiting boxes, if there is one.
    pub(crate) fn first(&self) -> Option<LabelBox>
        ensures { option_map (λ b. b.labels) result ≡ slice_get (state_of self.now).boxes 0 }
    {
        self.boxes.last().copied()
    }

    fn is_ended(&self) -> bool
        ensures { result ≡ ended (standing_of self.now.end) }
    {
        self.end != End::Paused
    }

    // Makes steps until the search has ended or the budget is made, and answers how many.
    pub(crate) fn work<B: Book>(&mut self, book: &B, rules: RuleSet, budget: u32) -> u32
        ensures value { result ≡ made (B.narrowed book.now) (members rules.bits) budget (state_of self.old) }
        ensures after { state_of self.new ≡ run (B.narrowed book.now) (members rules.bits) budget (state_of self.old) }
        ensures law { SearchRight }
    {
        for steps in 0..budget {
            if self.is_ended() {
                return steps;
            }
            self.step(book, rules);
        }
        budget
    }

    // One step of a search that has not ended.
    fn step<B: Book>(&mut self, book: &B, rules: RuleSet)
        requires { self.old.end ≡ Paused }
        ensures { state_of self.new ≡ stepped (B.narrowed book.now) (members rules.bits) (state_of self.old).boxes }
    {
        if let Some(first) = self.take_first() {
            match narrow_by_all(book, rules, first) {
                Some(_) if first.is_single() => {
                    self.end = End::Kit(first.filling());
                    return;
                }
                Some(b) => self.put_back(b),
                None => {}
            }
        }
        self.end_if_empty();
    }

    // Takes the first box off.
    fn take_first(&mut self) -> Option<LabelBox>
        ensures boxes { MatchOption result (((state_of self.old).boxes ≡ []) × ((state_of self.new).boxes ≡ [])) (λ b. (state_of self.old).boxes ≡ b.labels ∷ (state_of self.new).boxes) }
        ensures end { self.new.end ≡ self.old.end }
    {
        self.boxes.pop()
    }

    // Puts a box in front.
    fn put_first(&mut self, b: LabelBox)
        requires { length (state_of self.old).boxes ≤ settled b.labels }
        ensures boxes { (state_of self.new).boxes ≡ b.labels ∷ (state_of self.old).boxes }
        ensures end { self.new.end ≡ self.old.end }
    {
        self.boxes.push(b);
    }

    // Puts a narrowed box back in front, whole or as its halves.
    fn put_back(&mut self, b: LabelBox)
        requires { length (state_of self.old).boxes ≤ settled b.labels }
        ensures boxes { (state_of self.new).boxes ≡ put_back b.labels (state_of self.old).boxes }
        ensures end { self.new.end ≡ self.old.end }
    {
        match b.split() {
            None => self.put_first(b),
            Some((first, second)) => {
                self.put_first(second);
                self.put_first(first);
            }
        }
    }

    // Ends a search with no kit where no box waits.
    fn end_if_empty(&mut self)
        requires { self.old.end ≡ Paused }
        ensures { state_of self.new ≡ without_kit (state_of self.old).boxes }
    {
        if self.boxes.is_empty() {
            self.end = End::NoKit;
        }
    }
}
