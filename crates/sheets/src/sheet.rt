ghost use Rattle.std.specs.Prelude.{◌≡◌, ◌≤◌, IfOk};
ghost use Rattle.forms.specs.Said.{used_slots};
ghost use Rattle.sheets.specs.CallLists.{LawOverCalls};
ghost use Rattle.sheets.specs.Histories.History.{Opened};
ghost use Rattle.sheets.specs.Histories.Call.{Enter, Withdraw, Rejoin, Fix, Bar, Free, Begin, Work, Close, Waiting, Copy};
ghost use Rattle.sheets.specs.Outcomes.{at_opening, entered, withdrawn, rejoined, fixed, barred, freed, begun, worked, closed, waiting_in};
ghost use Rattle.sheets.specs.Refusals.{SetsLawful};
ghost use Rattle.sheets.specs.SheetHistories.{answer_of, work_answer, close_answer, waiting_answer};
ghost use Rattle.sheets.specs.Sheets.{the_slip, contents_of, whole, on_sheet, work_result, waiting_result, copy_of, copy_answer, HasHistory, Extends, KeepsLaw};

use crate::refusal::Refusal;
use crate::search::End;
use crate::sheet_copy::SheetCopy;
use crate::sheet_state::SheetState;
use crate::slip::Slip;
use forms::form::Form;
use kits::book::Book;
use kits::label_box::LabelBox;

mod finding;

// A sheet over a form, a book and a mark. The law stands with each call: as a ghost field it would bound `B`.
#[derive(Drop)]
pub struct Sheet<B> {
    form: Form,
    book: B,
    mark: u16,
    state: SheetState,
}

impl<B: Book> Sheet<B> {
    // Opens a sheet: no rule is in force or gone, no slot has a choice, no search is open.
    pub fn new(form: Form, book: B, mark: u16) -> Sheet<B>
        ensures outcome { whole result ≡ (form, book, mark, at_opening) }
        ensures history { HasHistory B.Book result Opened }
        ensures law { KeepsLaw B.Book result }
        ensures calls { LawOverCalls }
    {
        Sheet {
            form,
            book,
            mark,
            state: SheetState::new(),
        }
    }

    // Brings a rule in.
    pub fn enter(&mut self, rule: u32) -> Result<(), Refusal>
        ensures outcome { (result, whole self.new) ≡ on_sheet (entered (B.rules self.old.book) rule (contents_of self.old.state)) self.old }
        ensures history { Extends B.Book self.old self.new (Enter rule) (answer_of result) }
        ensures law { KeepsLaw B.Book self.new }
    {
        self.state.enter(self.book.count(), rule)
    }

    // Takes a rule out, for good.
    pub fn withdraw(&mut self, rule: u32) -> Result<(), Refusal>
        ensures outcome { (result, whole self.new) ≡ on_sheet (withdrawn (B.rules self.old.book) rule (contents_of self.old.state)) self.old }
        ensures history { Extends B.Book self.old self.new (Withdraw rule) (answer_of result) }
        ensures law { KeepsLaw B.Book self.new }
    {
        self.state.withdraw(self.book.count(), rule)
    }

    // Brings in the copy's set in force, and takes out its set gone.
    pub fn rejoin(&mut self, copy: SheetCopy) -> Result<(), Refusal>
        ensures outcome { (result, whole self.new) ≡ on_sheet (rejoined (B.rules self.old.book) self.old.mark copy.mark copy.force copy.gone (contents_of self.old.state)) self.old }
        ensures sets { SetsLawful }
        ensures history { Extends B.Book self.old self.new (Rejoin copy.mark copy.force copy.gone) (answer_of result) }
        ensures law { KeepsLaw B.Book self.new }
    {
        self.state.rejoin(self.book.count(), self.mark, copy)
    }

    // Asks for a part in a slot.
    pub fn fix(&mut self, slot: u32, part: u32) -> Result<(), Refusal>
        ensures outcome { (result, whole self.new) ≡ on_sheet (fixed (used_slots self.old.form) slot part (contents_of self.old.state)) self.old }
        ensures history { Extends B.Book self.old self.new (Fix slot part) (answer_of result) }
        ensures law { KeepsLaw B.Book self.new }
    {
        self.state.fix(&self.form, slot, part)
    }

    // Asks for an empty slot.
    pub fn bar(&mut self, slot: u32) -> Result<(), Refusal>
        ensures outcome { (result, whole self.new) ≡ on_sheet (barred (used_slots self.old.form) slot (contents_of self.old.state)) self.old }
        ensures history { Extends B.Book self.old self.new (Bar slot) (answer_of result) }
        ensures law { KeepsLaw B.Book self.new }
    {
        self.state.bar(&self.form, slot)
    }

    // Lifts the choice on a slot.
    pub fn free(&mut self, slot: u32) -> Result<(), Refusal>
        ensures outcome { (result, whole self.new) ≡ on_sheet (freed (used_slots self.old.form) slot (contents_of self.old.state)) self.old }
        ensures history { Extends B.Book self.old self.new (Free slot) (answer_of result) }
        ensures law { KeepsLaw B.Book self.new }
    {
        self.state.free(&self.form, slot)
    }

    // Opens a search over the opening box, and gives a slip.
    pub fn begin(&mut self) -> Result<Slip, Refusal>
        ensures outcome { (result, whole self.new) ≡ on_sheet (begun (used_slots self.old.form) the_slip (contents_of self.old.state)) self.old }
        ensures history { Extends B.Book self.old self.new Begin (answer_of result) }
        ensures law { KeepsLaw B.Book self.new }
    {
        self.state.begin(&self.form)
    }

    // Makes steps until the search has ended or the budget is made; answers how the search stands, and the steps made.
    pub fn work(&mut self, budget: u32) -> Result<(End, u32), Refusal>
        ensures outcome { (work_result result, whole self.new) ≡ on_sheet (worked (B.narrowed self.old.book) budget (contents_of self.old.state)) self.old }
        ensures history { Extends B.Book self.old self.new (Work budget) (work_answer (work_result result)) }
        ensures law { KeepsLaw B.Book self.new }
    {
        self.state.work(&self.book, budget)
    }

    // Takes a slip back and ends the search. A refused close hands the slip back.
    pub fn close(&mut self, slip: Slip) -> Result<(), (Refusal, Slip)>
        ensures outcome { (result, whole self.new) ≡ on_sheet (closed slip (contents_of self.old.state)) self.old }
        ensures history { Extends B.Book self.old self.new Close (close_answer result) }
        ensures law { KeepsLaw B.Book self.new }
    {
        self.state.close(slip)
    }

    // How many boxes wait, and the first of them.
    pub fn waiting(&self) -> Result<(usize, Option<LabelBox>), Refusal>
        ensures outcome { waiting_result result ≡ waiting_in (contents_of self.now.state).search }
        ensures few { IfOk result (λ waiting. waiting.0 ≤ 25) }
        ensures history { Extends B.Book self.now self.now Waiting (waiting_answer (waiting_result result)) }
        ensures law { KeepsLaw B.Book self.now }
    {
        self.state.waiting()
    }

    // The sheet's mark, its rules in force and its rules gone.
    pub fn copy(&self) -> SheetCopy
        ensures outcome { result ≡ copy_of self.now }
        ensures history { Extends B.Book self.now self.now Copy (copy_answer result) }
        ensures law { KeepsLaw B.Book self.now }
    {
        SheetCopy {
            mark: self.mark,
            force: self.state.force.bits,
            gone: self.state.gone.bits,
        }
    }
}
