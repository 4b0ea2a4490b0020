ghost use Rattle.std.specs.Prelude.{◌+◌, ◌^◌, ◌<◌, length};

mod lines;
mod state;

// A text that is read line by line: the number of the next line, from 1, and the bytes from there on.
#[derive(Drop)]
pub struct Reader<'a> {
    line: u32,
    text: &'a [u8],
    ghost countable: { line + length text.now < 2 ^ 32 },
}
