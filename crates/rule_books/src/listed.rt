ghost use Rattle.std.specs.Prelude.{◌≤◌};

mod calls;

// At most N numbers, one after another, in no heap. A book is copied, and the library's `ArrayVec` is not.
#[derive(Clone, Copy)]
pub(crate) struct Listed<const N: usize> {
    numbers: [u16; N],
    count: usize,
    ghost within: { count ≤ N },
}
