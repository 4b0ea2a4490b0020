ghost use Rattle.std.specs.Prelude.{◌≡◌, ◌≤◌, ◌+◌, ◌-◌, ◌++◌, length, take, min};
ghost use Rattle.catalogue.specs.Rooms.{Items, items_code};

use std::marker::Model;

// Items, at most N of them, in an array. The library's vector of fixed room takes longer to make, and to fill piece by piece.
#[derive(Drop)]
pub(crate) struct Room<T, const N: usize> {
    places: [T; N],
    count: usize,
}

impl<T, const N: usize> Model for Room<T, N> {
    ghost Value = { Items T };

    ghost coded = { items_code T.code };

    ghost view = { λ r. record { items = take r.count r.places } };

    ghost invariant = { λ r. r.count ≤ N };
}

// Copies items to the places from one on, as many as there is room for, and answers where they end.
#[inline(always)]
fn lay_from<T: Copy>(places: &mut [T], at: usize, items: &[T]) -> usize
    requires { at ≤ length places.old }
    ensures value { result ≡ min (at + length items.now) (length places.old) }
    ensures after { take result places.new ≡ take at places.old ++ take (result - at) items.now }
    ensures long { length places.new ≡ length places.old }
{
    let mut end = at;
    for item in items {
        if end < places.len() {
            places[end] = *item;
            end += 1;
        }
    }
    end
}

impl<T: Copy, const N: usize> Room<T, N> {
    ghost use Rattle.std.specs.Prelude.{[]};
    ghost use Rattle.catalogue.specs.Storing.{held};

    // No items: the filler is none.
    #[inline(always)]
    pub(crate) fn new(filler: T) -> Self
        ensures { result.items ≡ [] }
    {
        Room {
            places: [filler; N],
            count: 0,
        }
    }

    // More items, as many as there is room for.
    #[inline(always)]
    pub(crate) fn keep(&mut self, items: &[T])
        ensures { self.new.items ≡ held N self.old.items items.now }
    {
        self.count = lay_from(&mut self.places, self.count, items);
    }

    pub(crate) fn as_slice(&self) -> &[T]
        ensures { result.now ≡ self.now.items }
    {
        &self.places[..self.count]
    }
}
