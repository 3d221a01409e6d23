// A word among several.

// The number of a word in a list with `|` between one and the next, counted from 0; the number of words where it is none of them.
pub fn index_of(word: &[u8], list: &[u8]) -> u64 {
    let mut k = 0;
    for other in list.split(|c| *c == b'|') {
        if other == word {
            return k;
        }
        k = crate::plus(k, 1);
    }
    k
}
