// Layouts and the plan of a page that each comes to (document 01, "Layout words"; document 02, E7, E8 and E12).
//
//   layout_for               the layout of the fields of a record, accepted or not; the crate `layout` says whether it is
//   sectors_layout           the layout of a page of sectors, accepted or not; the crate `sectors` says whether it is
//   plan_of                  the plan of a page under a layout
//
// The crate `layout_record` takes a record apart into its fields (`Fields`); what they are stands here, in specs/Record.antt. sums.rt works
// the sums out (`Plan`): number of blocks, data length, used bits, lengths of block 0 and of a later block. They are kept (`Layout`), and
// nothing adds them up again. Code and definitions above know a plan and no layout words; block b starts where block b - 1 ends with its
// pads, at any bit. sector_sums.rt does the same for sectors. choice.rt has the field that both choose.
#![tactic(auto)]

mod choice;
mod sector_sums;
mod sums;

pub use choice::field_of;
use field::Field;
use mark::Mark;
pub use sector_sums::sectors_layout;
pub use sums::{block_covered, block_shape, block_start, layout_for, page_room, pitch, plan_of};

// What a layout word stores of one kind of block: the level field, of which t is twice, the field choice, and the data in
// units of 4 bytes. Document 01 calls them ECC0, GF and DATA0_SIZE in word 0, ECCN, GF and DATAN_SIZE in word 1.
#[derive(Clone, Copy)]
pub struct BlockFields {
    pub ecc: u8,
    pub gf: Field,
    pub units: u16,
}

// The fields of the layout words: NBLOCKS, META_SIZE, those of block 0, PAGE_SIZE, those of the later blocks, the mark, and the bits
// after it, which are to be zero.
#[derive(Clone, Copy)]
pub struct Fields {
    pub nblocks: u8,
    pub metadata: u8,
    pub first: BlockFields,
    pub page: u16,
    pub later: BlockFields,
    pub mark: Mark,
    pub zeros: u8,
    // 1 or 2: which level fields there are.
    pub edition: u64,
}

// The numbers of a layout of sectors (document 02, E12): how many sectors, the bytes of data in a sector and in the last one, the level
// field, of which t is twice, the field choice, and the bytes of a page; and the edition beside them.
#[derive(Clone, Copy)]
pub struct Sectors {
    pub count: u16,
    pub size: u16,
    pub last: u16,
    pub level: u16,
    pub choice: u16,
    pub page: u16,
    pub edition: u64,
}

// What a block is made of: message bits, parity bits by field and level, and pads.
#[derive(Clone, Copy)]
pub struct Shape {
    pub message: u32,
    // Message and parity bits together.
    pub covered: u32,
    // Pad bits between its covered bits and the next block.
    pub pads: u8,
    pub field: Field,
    // t: how many flips the block's code corrects.
    pub level: u16,
}

// What a layout comes to: how many blocks, how many bytes of page, metadata and data, the bits of all blocks with their pads, what a
// block is made of, and the mark. The first `firsts` blocks have the shape `first`, the others the shape `later`. Under layout words that
// is block 0, under sectors every sector but the last.
#[derive(Clone, Copy)]
pub struct Plan {
    pub blocks: u16,
    pub firsts: u16,
    pub size: u16,
    pub metadata: u32,
    pub data: u32,
    pub used: u32,
    pub first: Shape,
    pub later: Shape,
    pub mark: Mark,
}

// A layout: the plan of a page with its sums. No other crate can set it, and two functions make it, one for each family of controllers
// (`sums::layout_for`, `sector_sums::sectors_layout`).
#[derive(Clone, Copy)]
pub struct Layout {
    plan: Plan,
}
