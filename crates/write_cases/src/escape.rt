use std::fmt;

// Bytes shown on one line: `\n` is a line end, `\\` a backslash, and `\xHH` any other byte that is not printable.
#[derive(Clone, Copy)]
pub(crate) struct Escaped<'a>(pub &'a [u8]);

fn show_byte<W: fmt::Write>(byte: u8, f: &mut fmt::Formatter<W>) -> fmt::Result {
    match byte {
        b'\n' => write!(f, "\\n"),
        b'\\' => write!(f, "\\\\"),
        b' '..=b'|' | b'~' => {
            let shown = char::from(byte);
            write!(f, "{shown}")
        }
        _ => write!(f, "\\x{byte:02x}"),
    }
}

impl fmt::Display for Escaped<'_> {
    fn fmt<W: fmt::Write>(&self, f: &mut fmt::Formatter<W>) -> fmt::Result {
        for byte in self.0 {
            show_byte(*byte, f)?;
        }
        Ok(())
    }
}
