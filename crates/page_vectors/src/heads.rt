// What a head says.

// The 40 bytes before the body of a vector.
#[derive(Clone, Copy)]
pub struct Head<'a> {
    pub bytes: &'a [u8; 40],
}

impl<'a> Head<'a> {
    // The kind of call.
    pub fn kind(self) -> u8 {
        self.bytes[0]
    }

    // The edition.
    pub fn edition(self) -> u64 {
        let bytes = self.bytes;
        vector_io::number(bytes, 2, 8)
    }

    // The layout record.
    pub fn record(self) -> &'a [u8] {
        let bytes = self.bytes;
        let length = bytes[1] as usize % 13;
        text::front(&bytes[10..22], length)
    }

    // The length in four bytes.
    pub fn length(self, at: usize) -> usize {
        let bytes = self.bytes;
        vector_io::number(bytes, at, 4) as usize
    }

    // The block of a judgement or of a claim.
    pub fn block(self) -> u64 {
        let bytes = self.bytes;
        vector_io::number(bytes, 32, 8)
    }
}
