use crate::escape::unescape;
use anyhow::Context;
use std::alloc::Global;

// A text to read, and how many cells are lent for it.
#[derive(Drop)]
pub(crate) struct Case<'a> {
    pub name: &'a str,
    pub room: usize,
    pub text: Vec<u8>,
}

impl<'a> Case<'a> {
    // A line has the name, the room and the escaped text, with a space between two.
    pub(crate) fn parse(heap: Global, line: &'a str) -> anyhow::Result<Case<'a>> {
        // Two cuts with a message each, as short as one shared call with both.
        let (name, rest) = line.split_once(' ').context("a case has no room")?;
        let (room, text) = rest.split_once(' ').context("a case has no text")?;
        Ok(Case {
            name,
            room: room.parse::<usize>()?,
            text: unescape(heap, text)?,
        })
    }
}
