ghost use Rattle.std.specs.Prelude.{◌≡◌, true};
ghost use Rattle.catalogue.specs.Listed.{listed};
ghost use Rattle.forms.specs.Forms.{form_lawful};

use catalogue::slots::Slots;

mod calls;
mod opening;
mod taken;

// Which of the 24 slots are used, the first ones, what each of them offers, and which are never empty.
#[derive(Clone, Copy)]
pub struct Form {
    slots: Slots,
    ghost lawful: { form_lawful (listed slots) ≡ true },
}
