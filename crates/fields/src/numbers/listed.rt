ghost use Rattle.std.specs.Prelude.{◌≡◌, ◌≤◌, ◌++◌, [], ◌∷◌, length, if◌then◌else◌, Some, None, nat_le, nat_lt};
ghost use Rattle.std.specs.Option.{option_map};
ghost use Rattle.fields.specs.Numbers.{after_space, numbers_up_to};
ghost use Rattle.fields.specs.Values.{values_of};

use super::Numbers;
use crate::number::number;
use crate::word::past_word;

// What follows one space.
pub fn past_space(text: &[u8]) -> Option<&[u8]>
    ensures { option_map (λ x. x.now) result ≡ after_space text.now }
{
    past_word(text, b" ")
}

impl Numbers {
    #[inline(always)]
    fn none() -> Numbers
        ensures { values_of result ≡ [] }
    {
        Numbers {
            values: [0; 4],
            count: 0,
        }
    }

    // One number more, in place: by value, each number would be moved with those before it. None where four are there.
    #[inline(always)]
    fn push(&mut self, n: u32) -> Option<()>
        ensures { option_map (λ _. values_of self.new) result ≡ (if nat_lt (length (values_of self.old)) 4 then Some (values_of self.old ++ n ∷ []) else None) }
    {
        if self.count == 4 {
            return None;
        }
        self.values[self.count] = n;
        self.count += 1;
        Some(())
    }

    // One to four numbers up to 99,999, one space apart, and nothing after them.
    #[tactic(auto, using(crate::proofs::NumberLists::reads_on))]
    pub fn read(text: &[u8]) -> Option<Numbers>
        ensures { option_map values_of result ≡ numbers_up_to 4 text.now }
    {
        let mut numbers = Numbers::none();
        let mut rest = text;
        loop {
            let (n, after) = number(rest, 99_999u32)?;
            numbers.push(n)?;
            if after.is_empty() {
                return Some(numbers);
            }
            rest = past_space(after)?;
        }
    }

    // The numbers of at most four cells.
    pub fn of_cells(cells: &[u16]) -> Option<Numbers>
        ensures { option_map values_of result ≡ (if nat_le (length cells.now) 4 then Some cells.now else None) }
    {
        // By patterns: a count that lies beside the numbers, one number after another, took a third more time.
        match *cells {
            [] => Some(Numbers::none()),
            [a] => Some(Numbers {
                values: [u32::from(a), 0, 0, 0],
                count: 1,
            }),
            [a, b] => Some(Numbers {
                values: [u32::from(a), u32::from(b), 0, 0],
                count: 2,
            }),
            [a, b, c] => Some(Numbers {
                values: [u32::from(a), u32::from(b), u32::from(c), 0],
                count: 3,
            }),
            [a, b, c, d] => Some(Numbers {
                values: [u32::from(a), u32::from(b), u32::from(c), u32::from(d)],
                count: 4,
            }),
            _ => None,
        }
    }

    pub fn as_slice(&self) -> &[u32]
        ensures value { result.now ≡ values_of self.now }
        ensures few { length result.now ≤ 4 }
    {
        &self.values[..self.count]
    }
}
