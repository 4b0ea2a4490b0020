ghost use Rattle.std.specs.Prelude.{◌≡◌, is_some};
ghost use Rattle.forms.specs.Said.{used_slots};
ghost use Rattle.sheets.specs.Histories.{History};
ghost use Rattle.sheets.specs.Outcomes.{find_outcome};
ghost use Rattle.sheets.specs.SheetHistories.{find_history};
ghost use Rattle.sheets.specs.Sheets.{contents_of, whole, on_sheet, work_result, HasHistory, KeepsLaw};

use super::Sheet;
use crate::refusal::Refusal;
use crate::search::End;
use kits::book::Book;

// Beside the other calls, since scripts/slip_checks tries wrong uses of a slip on this file.
impl<B: Book> Sheet<B> {
    // Begin, one work and close.
    pub fn find(&mut self, budget: u32) -> Result<(End, u32), Refusal>
        ensures outcome { (work_result result, whole self.new) ≡ on_sheet (find_outcome (used_slots self.old.form) (B.narrowed self.old.book) budget (contents_of self.old.state)) self.old }
        ensures history { (h : History) → HasHistory B.Book self.old h → HasHistory B.Book self.new (find_history h budget (is_some (contents_of self.old.state).search) (work_result result)) }
        ensures law { KeepsLaw B.Book self.new }
    {
        let slip = self.begin()?;
        let answer = self.work(budget);
        // A refused close hands the slip back, which no `?` may drop.
        match self.close(slip) {
            Ok(()) => answer,
            Err((_, _slip)) => unreachable(),
        }
    }
}
