// Settings that remember (document 02, E11): layouts with version numbers, and for each of 16 chip selects the version in use.
//
//   empty              a store with no layout
//   store_layout       stores the layout of an edition and a record, and answers its version
//   remove_version     removes a version that no chip select uses
//   use_version        puts a version to use at a chip select; 0 for none
//   version_in_use     the version in use at a chip select
//   save_versions      writes the versions in use into 32 bytes
//   load_versions      puts the versions in 32 bytes to use, all of them or none
//   find_version       the layout of a version
//
// No call asks anything of its caller. What each answers, and what it leaves of the store, is a definition over the plain list that the
// store stands for (`version_list/Plain`, `version_bytes/Saved`): a refused call leaves a store that stands for the same list. The crate
// `store_runs` has the laws of any sequence of calls from an empty store.
//
// The first `count` of the 32 places hold the layouts, oldest first (`version_list`). A layout is kept as its plan, with its sums, and not
// as its record.
#![tactic(auto)]

ghost use Rattle.std.specs.Prelude.{◌≡◌, true, false, ◌≤◌, ◌<◌};
ghost use Rattle.replies.specs.Replies.{among};
ghost use Rattle.layout_plan.specs.Record.{words_of};
ghost use Rattle.layout.specs.Acceptance.{refusal_of};
ghost use Rattle.version_list.specs.Plain.{ended, empty, find, known, add_of, store_of, remove_of, set_of, use_of};
ghost use Rattle.version_bytes.specs.Saved.{all_known, saving, save_of, load_of};
ghost use Rattle.store.specs.declared.Refusal.TheVariants.{Table};
ghost use Rattle.store.specs.Answers.{verdict_reply, answer_version, usable, listed};

use field::Field;
use layout::check_layout;
use layout_plan::{Plan, Shape, plan_of};
use mark::Mark;
use version_bytes::{numbers_in, put_numbers};
pub use version_list::Numbered;
use version_list::{close_gap, held, index_of};

// The layouts, how many there are, the number that storing gives next, and the versions in use, chip select 0 first. No other crate
// can set them.
// By hand: a fixed array with its count beside it, and no Vec or map, since this project has no heap.
#[derive(Clone, Copy)]
pub struct Store {
    layouts: [Numbered; 32],
    count: usize,
    next: u32,
    uses: [u16; 16],
}

// Why a call is refused: a case of document 01's table, or one of the store's own numbers.
#[derive(Clone, Copy)]
pub enum Refusal {
    Table(replies::Refusal),
    // 12: the store holds 32 layouts.
    Full,
    // 13: the numbers up to 65,535 are used up.
    NumbersUsedUp,
    // 14: a chip select uses the version.
    InUse,
}

impl From<replies::Refusal> for Refusal {
    ghost from_gives = { λ r y. y ≡ Table r };

    fn from(refusal: replies::Refusal) -> Refusal {
        Refusal::Table(refusal)
    }
}

impl From<layout::Refusal> for Refusal {
    ghost from_gives = { λ r y. y ≡ Table (refusal_of r) };

    fn from(refusal: layout::Refusal) -> Refusal {
        Refusal::Table(replies::Refusal::from(refusal))
    }
}

// What a place without a layout holds.
fn vacant() -> Numbered {
    let shape = Shape {
        message: 0,
        covered: 0,
        pads: 0,
        field: Field::Thirteen,
        level: 0,
    };
    let plan = Plan {
        blocks: 0,
        firsts: 0,
        size: 0,
        metadata: 0,
        data: 0,
        used: 0,
        first: shape,
        later: shape,
        mark: Mark {
            offset: 0,
            length: 0,
        },
    };
    Numbered {
        number: 0,
        edition: 0,
        plan: plan,
    }
}

// Whether a store with this many layouts has no place left.
fn is_full(count: usize) -> bool
    ensures { (result ≡ true → 32 ≤ count) × (result ≡ false → count < 32) }
{
    32 <= count
}

// Whether every number was given.
fn are_used_up(next: u32) -> bool
    ensures { (result ≡ true → 65536 ≤ next) × (result ≡ false → next < 65536) }
{
    65536 <= next
}

impl Store {
    // A store with no layout: the next version is 1, and no chip select has one in use.
    pub fn empty() -> Store
        ensures { listed result ≡ empty }
    {
        Store {
            layouts: [vacant(); 32],
            count: 0,
            next: 1,
            uses: [0; 16],
        }
    }

    // The layout of a version.
    pub fn find_version(&self, version: u64) -> Option<Numbered>
        ensures { result ≡ find (listed self.now).layouts version }
    {
        let count = held(self.layouts, self.count);
        let at = index_of(self.layouts, count, version);
        if count <= at {
            return None;
        }
        Some(self.layouts[at])
    }

    // Adds a layout under the next number.
    fn add_layout(&mut self, edition: u64, plan: Plan) -> Result<u16, Refusal>
        ensures { ended (verdict_reply result) (answer_version result) (listed self.new) ≡ add_of (listed self.old) edition plan }
    {
        let count = held(self.layouts, self.count);
        let next = self.next;
        if is_full(count) {
            return Err(Refusal::Full);
        }
        if are_used_up(next) {
            return Err(Refusal::NumbersUsedUp);
        }
        let number = next as u16;
        self.layouts[count] = Numbered {
            number: number,
            edition: edition,
            plan: plan,
        };
        self.count = count + 1;
        self.next = next + 1;
        Ok(number)
    }

    // Stores the layout of an edition and a record, and answers its version.
    pub fn store_layout(&mut self, edition: u64, words: &[u8]) -> Result<u16, Refusal>
        ensures { ended (verdict_reply result) (answer_version result) (listed self.new) ≡ store_of (listed self.old) (words_of edition words.now) }
    {
        let layout = check_layout(edition, words)?;
        self.add_layout(edition, plan_of(layout))
    }

    // Whether a chip select uses a version.
    fn is_used(&self, version: u64) -> bool
        ensures { result ≡ among version self.now.uses }
    {
        self.uses.iter().any(|&number| version == number as u64)
    }

    // Removes a version that no chip select uses.
    pub fn remove_version(&mut self, version: u64) -> Result<(), Refusal>
        ensures { ended (verdict_reply result) 0 (listed self.new) ≡ remove_of (listed self.old) version }
    {
        let count = held(self.layouts, self.count);
        let at = index_of(self.layouts, count, version);
        if count <= at {
            return Err(Refusal::Table(replies::Refusal::OutOfRange));
        }
        if self.is_used(version) {
            return Err(Refusal::InUse);
        }
        self.layouts = close_gap(self.layouts, count, at);
        self.count = count - 1;
        Ok(())
    }

    // Whether a chip select may have a version in use: 0, or one that the store has.
    fn is_known(&self, version: u64) -> bool
        ensures { result ≡ known (listed self.now).layouts version }
    {
        version == 0 || self.find_version(version).is_some()
    }

    // The number of a version that a chip select may have in use.
    fn usable(&self, version: u64) -> Result<u16, Refusal>
        ensures { result ≡ usable (listed self.now).layouts version }
    {
        if version == 0 {
            return Ok(0);
        }
        let layout = self
            .find_version(version)
            .ok_or(replies::Refusal::OutOfRange)?;
        Ok(layout.number)
    }

    // Puts a version to use at a chip select; 0 for none.
    pub fn use_version(&mut self, chip: u64, version: u64) -> Result<(), Refusal>
        ensures { ended (verdict_reply result) 0 (listed self.new) ≡ set_of (listed self.old) chip version }
    {
        if 16 <= chip {
            return Err(Refusal::Table(replies::Refusal::OutOfRange));
        }
        self.uses[chip as usize] = self.usable(version)?;
        Ok(())
    }

    // The version in use at a chip select.
    pub fn version_in_use(&self, chip: u64) -> Result<u16, Refusal>
        ensures { ended (verdict_reply result) (answer_version result) (listed self.now) ≡ use_of (listed self.now) chip }
    {
        if 16 <= chip {
            return Err(Refusal::Table(replies::Refusal::OutOfRange));
        }
        Ok(self.uses[chip as usize])
    }

    // Writes the versions in use into a buffer of 32 bytes.
    pub fn save_versions(&self, buffer: &mut [u8]) -> Result<(), Refusal>
        ensures { saving (verdict_reply result) buffer.new ≡ save_of (listed self.now) buffer.old }
    {
        if buffer.len() != 32 {
            return Err(Refusal::Table(replies::Refusal::BufferLength));
        }
        put_numbers(self.uses, buffer);
        Ok(())
    }

    // Whether each of 16 numbers is 0 or a version that the store has.
    fn are_known(&self, numbers: &[u16; 16]) -> bool
        ensures { result ≡ all_known (listed self.now).layouts numbers.now }
    {
        numbers.iter().all(|&number| self.is_known(number as u64))
    }

    // Puts the versions in a buffer of 32 bytes to use, all of them or none.
    pub fn load_versions(&mut self, buffer: &[u8]) -> Result<(), Refusal>
        ensures { ended (verdict_reply result) 0 (listed self.new) ≡ load_of (listed self.old) buffer.now }
    {
        if buffer.len() != 32 {
            return Err(Refusal::Table(replies::Refusal::BufferLength));
        }
        let uses = numbers_in(buffer);
        if !self.are_known(&uses) {
            return Err(Refusal::Table(replies::Refusal::OutOfRange));
        }
        self.uses = uses;
        Ok(())
    }
}
