// What an answer says of a page.
use crate::{Answer, meaning};

impl Answer {
    // A length that was found, and the one that is wanted. A file is not read further than one byte beyond that.
    pub fn length(&mut self, what: &str, found: usize, wanted: usize) {
        if wanted < found {
            self.put(format_args!("{what}more than {wanted} bytes ({wanted} wanted)"));
        } else {
            self.put(format_args!("{what}{found} bytes ({wanted} wanted)"));
        }
    }

    // The number of a page in a dump, before its answer.
    pub fn page_number(&mut self, page: u64) {
        self.put(format_args!("page {page}: "));
    }

    // A page of so many bytes that is refused, and what is wrong with it. Where another length is wanted both are shown, and where a
    // block is not there the number of blocks is.
    pub fn page_refused(&mut self, number: u8, found: usize, wanted: u16, blocks: u16) {
        self.reply(number);
        self.put(meaning(number));
        if number == 5 {
            self.length(": ", found, wanted as usize);
        }
        if number == 7 {
            self.put(format_args!(": the page has {blocks} blocks"));
        }
        self.put("\n");
    }

    // A block that has no codeword within t flips. Its line is not ended.
    pub fn ruined(&mut self, block: u16) {
        self.note(9);
        self.put(format_args!("reply 9 block {block}: {}", meaning(9)));
    }
}
