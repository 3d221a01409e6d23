// What the counts of a page come to.

// The count of a ruined block, which is that of no other.
pub const RUINED: u8 = 255;

// Corrected bits, the most in a block, erased blocks, their zeros, and ruined blocks.
#[derive(Clone, Copy)]
pub struct Sums {
    pub flips: u64,
    pub most: u8,
    pub erased: u64,
    pub zeros: u64,
    pub ruined: u64,
}

impl Sums {
    // One block more, by its count.
    fn add(&mut self, n: u8) {
        match n {
            RUINED => self.ruined = text::plus(self.ruined, 1),
            0..=127 => {
                self.flips = text::plus(self.flips, n as u64);
                self.most = self.most.max(n);
            }
            _ => {
                self.erased = text::plus(self.erased, 1);
                self.zeros = text::plus(self.zeros, (n - 128) as u64);
            }
        }
    }

    // The sums of a page's counts.
    pub fn of(counts: &[u8]) -> Self {
        let mut sums = Sums {
            flips: 0,
            most: 0,
            erased: 0,
            zeros: 0,
            ruined: 0,
        };
        for n in counts {
            sums.add(*n);
        }
        sums
    }

    // Whether a page of so many blocks is erased: every block is.
    pub fn is_erased(&self, blocks: u16) -> bool {
        self.erased == blocks as u64
    }
}
