ghost use Rattle.std.specs.Prelude.{◌≡◌, fold};
ghost use Rattle.cases.specs.Checksums.{with_byte};

// FNV-1a of 64 bits.
#[derive(Clone, Copy, PartialEq, Eq, Debug)]
pub struct Checksum {
    value: u64,
}

impl Checksum {
    // Of no bytes.
    pub fn new() -> Checksum
        ensures { result.value ≡ 14695981039346656037 }
    {
        Checksum {
            value: 0xcbf2_9ce4_8422_2325,
        }
    }

    // With these bytes after those that came.
    pub fn with(self, bytes: &[u8]) -> Checksum
        ensures { result.value ≡ fold with_byte self.value bytes.now }
    {
        let value = bytes.iter().fold(self.value, |sum, byte| {
            (sum ^ u64::from(*byte)).wrapping_mul(0x100_0000_01b3)
        });
        Checksum { value }
    }

    pub fn value(self) -> u64
        ensures { result ≡ self.value }
    {
        self.value
    }
}
