// Vectors that locate the errors behind a remainder.

// Locates the errors behind a remainder, whose vector has this head and this n.
fn locate<R: Input + Print>(rt: &R, head: &[u8; 32], n: u64, remainder: &[u8], places: &mut [u16]) {
    let found = bch::locate_errors(
        vector_io::number(head, 8, 8),
        vector_io::number(head, 16, 8),
        vector_io::number(head, 24, 8),
        n,
        remainder,
        places,
    );
    crate::show_located(rt, bch::answers::locate_reply(found), 0, found, places);
}

// Answers the vector of a head whose last eight bytes, n, are not read yet: false where the input ends before it.
pub fn next<R: Input + Print>(rt: &R, head: &[u8; 32]) -> bool {
    let mut last = [0u8; 8];
    if !vector_io::fill(rt, &mut last) {
        return false;
    }
    let [_, length, count, ..] = *head;
    if 112 < length || 70 < count {
        return false;
    }
    let mut remainder = [0u8; 112];
    let remainder = text::front_mut(&mut remainder, length as usize);
    if !vector_io::fill(rt, remainder) {
        return false;
    }
    let mut places = [42405u16; 70];
    let places = crate::front_mut(&mut places, count as usize);
    locate(rt, head, u64::from_be_bytes(last), remainder, places);
    true
}
