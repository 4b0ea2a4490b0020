ghost use Rattle.std.specs.Prelude.{◌≡◌, ◌≤◌, if◌then◌else◌, IfOk, length, is_some, Ok, Err, nat_lt};
ghost use Rattle.fields.specs.Results.{mapped_ok};
ghost use Rattle.forms.specs.Said.{used_slots};
ghost use Rattle.sheets.specs.declared.refusal.Refusal.TheVariants.{SearchOpen, NoRule, SlotUnused};
ghost use Rattle.sheets.specs.Outcomes.{at_opening, entered, withdrawn, rejoined, fixed, barred, freed, begun, worked, closed, waiting_in};
ghost use Rattle.sheets.specs.Sheets.{the_slip, contents_of, work_result, waiting_result};

use crate::refusal::Refusal;
use crate::rule_set::RuleSet;
use crate::search::{End, Search};
use crate::sheet_copy::SheetCopy;
use crate::slip::Slip;
use forms::form::Form;
use kits::book::Book;
use kits::choices::{Choice, Choices};
use kits::label_box::LabelBox;
use kits::slot_number::SlotNumber;

// What changes of a sheet: the rules in force and the rules gone, the choices on its slots, and its search.
#[derive(Drop)]
pub(crate) struct SheetState {
    pub(crate) force: RuleSet,
    pub(crate) gone: RuleSet,
    choices: Choices,
    search: Option<Search>,
}

impl SheetState {
    pub(crate) fn new() -> SheetState
        ensures { contents_of result ≡ at_opening }
    {
        SheetState {
            force: RuleSet::none(),
            gone: RuleSet::none(),
            choices: Choices::none(),
            search: None,
        }
    }

    // Refuses where a search is open.
    fn check_idle(&self) -> Result<(), Refusal>
        ensures { result ≡ if is_some (contents_of self.now).search then Err SearchOpen else Ok tt }
    {
        if self.search.is_some() {
            return Err(Refusal::SearchOpen);
        }
        Ok(())
    }

    // Refuses where a search is open, or the book has no such rule.
    fn check_rule(&self, count: u8, rule: u32) -> Result<(), Refusal>
        ensures { result ≡ if is_some (contents_of self.now).search then Err SearchOpen else if nat_lt rule count then Ok tt else Err NoRule }
    {
        self.check_idle()?;
        if rule >= u32::from(count) {
            return Err(Refusal::NoRule);
        }
        Ok(())
    }

    pub(crate) fn enter(&mut self, count: u8, rule: u32) -> Result<(), Refusal>
        requires { count ≤ 64 }
        ensures { (result, contents_of self.new) ≡ entered count rule (contents_of self.old) }
    {
        self.check_rule(count, rule)?;
        if self.gone.has(rule) {
            return Err(Refusal::RuleGone);
        }
        if self.force.has(rule) {
            return Err(Refusal::RuleInForce);
        }
        self.force = self.force.union(RuleSet::only(rule));
        Ok(())
    }

    pub(crate) fn withdraw(&mut self, count: u8, rule: u32) -> Result<(), Refusal>
        requires { count ≤ 64 }
        ensures { (result, contents_of self.new) ≡ withdrawn count rule (contents_of self.old) }
    {
        self.check_rule(count, rule)?;
        if !self.force.has(rule) {
            return Err(Refusal::RuleNotInForce);
        }
        let out = RuleSet::only(rule);
        self.force = self.force.without(out);
        self.gone = self.gone.union(out);
        Ok(())
    }

    pub(crate) fn rejoin(&mut self, count: u8, mark: u16, copy: SheetCopy) -> Result<(), Refusal>
        ensures { (result, contents_of self.new) ≡ rejoined count mark copy.mark copy.force copy.gone (contents_of self.old) }
    {
        self.check_idle()?;
        if copy.mark != mark {
            return Err(Refusal::OtherMark);
        }
        let force = RuleSet { bits: copy.force };
        let gone = RuleSet { bits: copy.gone };
        if !(force.is_below(count) && gone.is_below(count) && force.is_disjoint(gone)) {
            return Err(Refusal::UnlawfulSets);
        }
        self.gone = self.gone.union(gone);
        self.force = self.force.union(force).without(self.gone);
        Ok(())
    }

    // The slot that a choice is for: refused where a search is open, or the slot is unused.
    fn chosen_slot(&self, form: &Form, slot: u32) -> Result<SlotNumber, Refusal>
        ensures { mapped_ok (λ s. s.number) result ≡ if is_some (contents_of self.now).search then Err SearchOpen else if nat_lt slot (length (used_slots form.now)) then Ok slot else Err SlotUnused }
    {
        self.check_idle()?;
        if slot >= form.used() {
            return Err(Refusal::SlotUnused);
        }
        SlotNumber::new(slot).ok_or(Refusal::SlotUnused)
    }

    pub(crate) fn fix(&mut self, form: &Form, slot: u32, part: u32) -> Result<(), Refusal>
        ensures { (result, contents_of self.new) ≡ fixed (used_slots form.now) slot part (contents_of self.old) }
    {
        let at = self.chosen_slot(form, slot)?;
        if !(1..=form.parts(slot)).contains(&part) {
            return Err(Refusal::PartNotOffered);
        }
        self.choices.choose(at, Choice::Fixed(part as u8)).unwrap();
        Ok(())
    }

    pub(crate) fn bar(&mut self, form: &Form, slot: u32) -> Result<(), Refusal>
        ensures { (result, contents_of self.new) ≡ barred (used_slots form.now) slot (contents_of self.old) }
    {
        let at = self.chosen_slot(form, slot)?;
        if form.is_standard(slot) {
            return Err(Refusal::SlotStandard);
        }
        self.choices.choose(at, Choice::Barred).unwrap();
        Ok(())
    }

    pub(crate) fn free(&mut self, form: &Form, slot: u32) -> Result<(), Refusal>
        ensures { (result, contents_of self.new) ≡ freed (used_slots form.now) slot (contents_of self.old) }
    {
        let at = self.chosen_slot(form, slot)?;
        self.choices.choose(at, Choice::Free).unwrap();
        Ok(())
    }

    pub(crate) fn begin(&mut self, form: &Form) -> Result<Slip, Refusal>
        ensures { (result, contents_of self.new) ≡ begun (used_slots form.now) the_slip (contents_of self.old) }
    {
        self.check_idle()?;
        self.search = Some(Search::start(form.opening(&self.choices)));
        Ok(Slip::given())
    }

    pub(crate) fn work<B: Book>(&mut self, book: &B, budget: u32) -> Result<(End, u32), Refusal>
        ensures { (work_result result, contents_of self.new) ≡ worked (B.narrowed book.now) budget (contents_of self.old) }
    {
        let search = self.search.as_mut().ok_or(Refusal::NoSearch)?;
        if !(1..=1_000_000).contains(&budget) {
            return Err(Refusal::BudgetOutOfRange);
        }
        let steps = search.work(book, self.force, budget);
        let end = search.end();
        Ok((end, steps))
    }

    pub(crate) fn close(&mut self, slip: Slip) -> Result<(), (Refusal, Slip)>
        ensures { (result, contents_of self.new) ≡ closed slip (contents_of self.old) }
    {
        // `ok_or` would let the slip go where a search is open.
        if self.search.is_none() {
            return Err((Refusal::NoSearch, slip));
        }
        slip.take_back();
        self.search = None;
        Ok(())
    }

    pub(crate) fn waiting(&self) -> Result<(usize, Option<LabelBox>), Refusal>
        ensures outcome { waiting_result result ≡ waiting_in (contents_of self.now).search }
        ensures few { IfOk result (λ waiting. waiting.0 ≤ 25) }
    {
        let search = self.search.as_ref().ok_or(Refusal::NoSearch)?;
        Ok((search.count(), search.first()))
    }
}
