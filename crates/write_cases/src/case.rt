use anyhow::Context;
use cases::numbers::parse_numbers;
use std::alloc::Global;

// Cells to write, and how many bytes are lent for their text.
#[derive(Drop)]
pub(crate) struct Case<'a> {
    pub name: &'a str,
    pub room: usize,
    pub cells: Vec<u16>,
}

impl<'a> Case<'a> {
    // A line has the name, the room and the cells, with a space between two.
    pub(crate) fn parse(heap: Global, line: &'a str) -> anyhow::Result<Case<'a>> {
        // Two cuts with a message each, as short as one shared call with both.
        let (name, rest) = line.split_once(' ').context("a case has no room")?;
        let (room, cells) = rest.split_once(' ').context("a case has no cells")?;
        Ok(Case {
            name,
            room: room.parse::<usize>()?,
            cells: parse_numbers(heap, cells)?,
        })
    }
}
