// The bytes of a layout record, taken apart.
ghost use Rattle.std.specs.Prelude.{◌≡◌, ◌≤◌, length, get_or, true};
ghost use Rattle.layout_plan.specs.Record.{block_fields, mark_at, mark_in, fields_at, fields_under, record_length};

use layout_plan::{BlockFields, Fields, field_of};
use mark::Mark;

// Level field, field choice and data size, from the low half of a layout word.
pub fn block_fields(high: u8, low: u8) -> BlockFields
    ensures { result ≡ block_fields high low }
{
    BlockFields {
        ecc: high / 8,
        gf: field_of(high / 4 % 2),
        units: high as u16 % 4 * 256 + low as u16,
    }
}

// Whether a record may have so many bytes: two words, or three.
pub fn record_length(n: usize) -> bool
    ensures { result ≡ record_length n }
{
    if n == 8 {
        return true;
    }
    n == 12
}

// Mark offset and mark length.
pub fn mark_at(b8: u8, b9: u8, b10: u8) -> Mark
    ensures { result ≡ mark_at b8 b9 b10 }
{
    Mark {
        offset: b8 as u16 * 256 + b9 as u16,
        length: b10,
    }
}

// The fields of eight bytes, with a mark, the bits that are to be zero and an edition.
pub fn fields_at(
    b0: u8,
    b1: u8,
    b2: u8,
    b3: u8,
    b4: u8,
    b5: u8,
    b6: u8,
    b7: u8,
    mark: Mark,
    zeros: u8,
    edition: u64,
) -> Fields
    ensures { result ≡ fields_at b0 b1 b2 b3 b4 b5 b6 b7 mark zeros edition }
{
    Fields {
        nblocks: b0,
        metadata: b1,
        first: block_fields(b2, b3),
        page: b4 as u16 * 256 + b5 as u16,
        later: block_fields(b6, b7),
        mark: mark,
        zeros: zeros,
        edition: edition,
    }
}

// The mark in a record of eight or twelve bytes.
pub fn mark_in(words: &[u8]) -> Mark
    requires { record_length (length words.now) ≡ true }
    ensures { result ≡ mark_in words.now }
{
    if words.len() == 8 {
        return Mark {
            offset: 0,
            length: 0,
        };
    }
    mark_at(words[8], words[9], words[10])
}

// The bits after the mark in a record of eight or twelve bytes.
pub fn zeros_in(words: &[u8]) -> u8
    requires { record_length (length words.now) ≡ true }
    ensures { result ≡ get_or words.now 11 0 }
{
    if words.len() == 8 {
        return 0;
    }
    words[11]
}

// The fields in a record of eight or twelve bytes.
pub fn fields_in(edition: u64, words: &[u8]) -> Fields
    requires right { record_length (length words.now) ≡ true }
    requires long { 8 ≤ length words.now }
    ensures { result ≡ fields_under edition words.now }
{
    let mark = mark_in(words);
    let zeros = zeros_in(words);
    fields_at(
        words[0], words[1], words[2], words[3], words[4], words[5], words[6], words[7], mark,
        zeros, edition,
    )
}

// The fields in twelve bytes: a record of three words, or of two and four zero bytes.
pub fn fields_of(edition: u64, words: &[u8; 12]) -> Fields
    ensures { result ≡ fields_under edition words.now }
{
    fields_in(edition, words)
}
