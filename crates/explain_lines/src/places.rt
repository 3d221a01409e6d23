// The flips of a block, a line each.
use explain::{Part, Place};
use say::Answer;

// A place in a page: its block and part, byte and bit of the page, and the byte of metadata or data.
fn place(out: &mut Answer, place: Place) {
    let part = match place.part {
        Part::Metadata => "metadata",
        Part::Data => "data",
        Part::Parity => "parity",
        Part::Tail => "tail",
        Part::Mark => "mark",
    };
    out.put(format_args!("block {}: {part}, ", place.block));
    out.put(format_args!("page byte {} bit {}", place.byte, place.bit));
    if let Part::Metadata | Part::Data = place.part {
        out.put(format_args!(", {part} byte {}", place.index));
    }
    out.put("\n");
}

// A line for each of these page positions.
pub fn flips(out: &mut Answer, edition: u64, record: &[u8; 12], list: &[u32]) {
    for position in list {
        if let Ok(at) = explain::explain_bit(edition, record, *position as u64) {
            place(out, at);
        }
    }
}
