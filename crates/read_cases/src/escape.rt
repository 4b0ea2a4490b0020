// Escaped text: `\n` is a line end, `\xHH` a byte, `\\` a backslash, and `\{N|UNIT}` is UNIT N times.
use anyhow::{Context, bail};
use std::alloc::Global;

// What the next byte is.
#[derive(Clone, Copy)]
enum State {
    Plain,
    Escape,
    Count,
    High,
    Low(u8),
}

#[derive(Drop)]
struct Decoder {
    out: Vec<u8>,
    unit: Vec<u8>,
    // How often the unit comes, where one is open.
    repeats: Option<usize>,
    state: State,
}

// The bytes that an escaped text stands for.
pub(crate) fn unescape(heap: Global, text: &str) -> anyhow::Result<Vec<u8>> {
    let mut decoder = Decoder::new(heap);
    for byte in text.as_bytes() {
        decoder.feed(*byte)?;
    }
    decoder.end()
}

impl Decoder {
    fn new(heap: Global) -> Decoder {
        Decoder {
            out: Vec::new(heap),
            unit: Vec::new(heap),
            repeats: None,
            state: State::Plain,
        }
    }

    fn feed(&mut self, byte: u8) -> anyhow::Result<()> {
        match self.state {
            State::Plain => self.plain(byte),
            State::Escape => self.escape(byte),
            State::Count => self.count(byte),
            State::High => {
                self.state = State::Low(hex_digit(byte)?);
                Ok(())
            }
            State::Low(high) => {
                self.state = State::Plain;
                self.put((high << 4) | hex_digit(byte)?)
            }
        }
    }

    fn plain(&mut self, byte: u8) -> anyhow::Result<()> {
        match byte {
            b'\\' => {
                self.state = State::Escape;
                Ok(())
            }
            b'}' => self.close(),
            _ => self.put(byte),
        }
    }

    fn escape(&mut self, byte: u8) -> anyhow::Result<()> {
        self.state = State::Plain;
        match byte {
            b'n' => return self.put(b'\n'),
            b'\\' => return self.put(b'\\'),
            b'x' => self.state = State::High,
            b'{' => {
                self.repeats = Some(0);
                self.state = State::Count;
            }
            _ => bail!("an unknown escape"),
        }
        Ok(())
    }

    fn count(&mut self, byte: u8) -> anyhow::Result<()> {
        match byte {
            b'|' => {
                self.unit.clear();
                self.state = State::Plain;
            }
            b'0'..=b'9' => {
                let so_far = self.repeats.unwrap_or(0);
                self.repeats = Some(
                    so_far
                        .wrapping_mul(10)
                        .wrapping_add(usize::from(byte - b'0')),
                );
            }
            _ => bail!("a count is no number"),
        }
        Ok(())
    }

    fn put(&mut self, byte: u8) -> anyhow::Result<()> {
        match self.repeats {
            Some(_) => self.unit.push(byte)?,
            None => self.out.push(byte)?,
        }
        Ok(())
    }

    // The unit is whole: as often as it was asked for, it joins what came before.
    fn close(&mut self) -> anyhow::Result<()> {
        let times = self.repeats.take().context("a unit ends that none began")?;
        for _ in 0..times {
            self.out.extend_from_slice(self.unit.as_slice())?;
        }
        Ok(())
    }

    fn end(self) -> anyhow::Result<Vec<u8>> {
        let Decoder {
            out,
            unit: _,
            repeats,
            state,
        } = self;
        match (repeats, state) {
            (None, State::Plain) => Ok(out),
            _ => bail!("a text ends within an escape"),
        }
    }
}

fn hex_digit(byte: u8) -> anyhow::Result<u8> {
    match byte {
        b'0'..=b'9' => Ok(byte - b'0'),
        b'a'..=b'f' => Ok(byte - b'a' + 10),
        _ => bail!("a byte is not hexadecimal"),
    }
}
