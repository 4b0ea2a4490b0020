ghost use Rattle.std.specs.Prelude.{◌≡◌};
ghost use Rattle.std.specs.Option.{option_map};
ghost use Rattle.kits.specs.Labels.{if_any};

use super::Label;

impl Label {
    // The set of these members, if there are any.
    pub fn new(bits: u16) -> Option<Label>
        ensures { option_map (λ l. l.bits) result ≡ if_any bits }
    {
        if bits == 0 {
            None
        } else {
            Some(Label { bits })
        }
    }

    pub fn bits(self) -> u16
        ensures { result ≡ self.bits }
    {
        self.bits
    }
}
