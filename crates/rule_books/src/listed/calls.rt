ghost use Rattle.std.specs.Prelude.{◌≡◌, ◌<◌, ◌≤◌, [], ◌∷◌, ◌++◌, length, slice_set};
ghost use Rattle.rule_books.specs.Listed.{listed};

use super::Listed;

impl<const N: usize> Listed<N> {
    pub(crate) fn none() -> Self
        ensures { listed result ≡ [] }
    {
        Listed {
            numbers: [0; N],
            count: 0,
        }
    }

    pub(crate) fn of(numbers: &[u16]) -> Self
        requires { length numbers.now ≤ N }
        ensures { listed result ≡ numbers.now }
    {
        let count = numbers.len();
        let mut all = [0; N];
        all[..count].copy_from_slice(numbers);
        Listed {
            numbers: all,
            count,
        }
    }

    pub(crate) fn as_slice(&self) -> &[u16]
        ensures { result.now ≡ listed self.now }
    {
        &self.numbers[..self.count]
    }

    pub(crate) fn push(&mut self, number: u16)
        requires { length (listed self.old) < N }
        ensures { listed self.new ≡ listed self.old ++ number ∷ [] }
    {
        self.numbers[self.count] = number;
        self.count += 1;
    }

    pub(crate) fn set(&mut self, place: usize, number: u16)
        requires { place < length (listed self.old) }
        ensures { listed self.new ≡ slice_set (listed self.old) place number }
    {
        self.numbers[place] = number;
    }

    pub(crate) fn len(&self) -> usize
        ensures value { result ≡ length (listed self.now) }
        ensures within { result ≤ N }
    {
        self.count
    }
}
