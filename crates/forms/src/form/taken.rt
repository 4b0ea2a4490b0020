ghost use Rattle.std.specs.Prelude.{◌≡◌};
ghost use Rattle.fields.specs.declared.fault.FaultKind.TheVariants.{UnlawfulCells};
ghost use Rattle.fields.specs.Faults.{fault};
ghost use Rattle.fields.specs.Results.{mapped_ok, found_or};
ghost use Rattle.catalogue.specs.Cells.{catalogue_of};
ghost use Rattle.forms.specs.Said.{used_slots, slots_or};

use super::Form;
use catalogue::cells::lawful_slots;
use fields::fault::{Fault, FaultKind};

impl Form {
    // Takes the form that lawful cells say. Unlawful cells are refused, and leave the form as it was.
    pub fn take(&mut self, cells: &[u16]) -> Result<(), Fault>
        ensures value { result ≡ mapped_ok (λ _. tt) (found_or (fault UnlawfulCells 0) (catalogue_of cells.now)) }
        ensures after { used_slots self.new ≡ slots_or (catalogue_of cells.now) (used_slots self.old) }
    {
        self.slots = lawful_slots(cells).ok_or(FaultKind::UnlawfulCells.at(0))?;
        Ok(())
    }
}
