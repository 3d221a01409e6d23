// The words that every call has.
use layout_plan::Sectors;

// A number of 16 bits.
fn short(line: &[u8], n: usize) -> Option<u16> {
    u16::try_from(vector_words::number(line, n)?).ok()
}

// The layout and the edition of a line, where all seven are numbers that fit.
pub fn head_of(line: &[u8]) -> Option<Sectors> {
    Some(Sectors {
        count: short(line, 1)?,
        size: short(line, 2)?,
        last: short(line, 3)?,
        level: short(line, 4)?,
        choice: short(line, 5)?,
        page: short(line, 6)?,
        edition: vector_words::number(line, 7)?,
    })
}
