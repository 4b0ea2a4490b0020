ghost use Rattle.std.specs.Prelude.{◌≡◌, ◌<◌, if◌then◌else◌, Some, None, nat_lt};
ghost use Rattle.std.specs.Option.{option_map};

use super::SlotNumber;

impl SlotNumber {
    // The slot of that number, if there is one.
    pub fn new(n: u32) -> Option<SlotNumber>
        ensures { option_map (λ s. s.number) result ≡ (if nat_lt n 24 then Some n else None) }
    {
        if n < 24 {
            Some(SlotNumber { number: n as u8 })
        } else {
            None
        }
    }

    pub fn index(self) -> usize
        ensures value { result ≡ self.number }
        ensures within { result < 24 }
    {
        usize::from(self.number)
    }
}
