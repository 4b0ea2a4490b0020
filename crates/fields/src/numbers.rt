ghost use Rattle.std.specs.Prelude.{◌≤◌};

mod listed;

pub use listed::past_space;

// Up to four numbers of one line, in an array with a count: the value takes no heap, and is copied, which the library's vector of fixed room is not.
#[derive(Clone, Copy)]
pub struct Numbers {
    values: [u32; 4],
    count: usize,
    ghost few: { count ≤ 4 },
}
