// The options after a command.
use crate::numbers::{WORD, at_most};
use crate::{argument, command, place};
use say::Answer;
use streams::System;

// An option that a command may take.
#[derive(Clone, Copy, PartialEq)]
pub enum Choice {
    From,
    Pages,
    Page,
    Quiet,
    Stdout,
    Raw,
    Mark,
    Edition,
    Map,
}

impl Choice {
    fn named(name: &[u8]) -> Option<Choice> {
        match name {
            b"--from" => Some(Choice::From),
            b"--pages" => Some(Choice::Pages),
            b"--page" => Some(Choice::Page),
            b"--quiet" => Some(Choice::Quiet),
            b"--stdout" => Some(Choice::Stdout),
            b"--raw" => Some(Choice::Raw),
            b"--mark" => Some(Choice::Mark),
            b"--edition" => Some(Choice::Edition),
            b"--map" => Some(Choice::Map),
            _ => None,
        }
    }

    // Whether a number stands after the option.
    fn has_number(self) -> bool {
        match self {
            Choice::From | Choice::Pages | Choice::Page | Choice::Mark | Choice::Edition => true,
            Choice::Quiet | Choice::Stdout | Choice::Raw | Choice::Map => false,
        }
    }
}

// What the options say.
#[derive(Clone, Copy)]
pub struct Options {
    // The number of the first argument after them.
    pub at: usize,
    // The pages of a dump that are asked for: from which on, and at most how many.
    from: Option<u64>,
    pages: Option<u64>,
    // The one page of a dump that is asked for.
    pub page: Option<u64>,
    pub quiet: bool,
    pub stdout: bool,
    pub raw: bool,
    pub map: bool,
    mark: Option<u32>,
    edition: Option<u64>,
}

impl Options {
    // No options, with the arguments from place `at` on.
    fn none(at: usize) -> Self {
        Options {
            at: at,
            from: None,
            pages: None,
            page: None,
            quiet: false,
            stdout: false,
            raw: false,
            map: false,
            mark: None,
            edition: None,
        }
    }

    // The number of the argument `k` places after the options.
    pub fn place(&self, k: usize) -> usize {
        place(self.at, k)
    }

    // Whether pages of a dump are asked for.
    pub fn is_ranged(&self) -> bool {
        self.from.is_some() || self.pages.is_some()
    }

    // The first page of a dump.
    pub fn from(&self) -> u64 {
        self.from.unwrap_or(0)
    }

    // How many pages of a dump at most.
    pub fn pages(&self) -> u64 {
        self.pages.unwrap_or(u64::MAX)
    }

    // The third layout word, 0 where none is given.
    pub fn mark(&self) -> u32 {
        self.mark.unwrap_or(0)
    }

    // The edition, 1 where none is given. The calls refuse all but 1 and 2.
    pub fn edition(&self) -> u64 {
        self.edition.unwrap_or(1)
    }

    fn has(&self, choice: Choice) -> bool {
        match choice {
            Choice::From => self.from.is_some(),
            Choice::Pages => self.pages.is_some(),
            Choice::Page => self.page.is_some(),
            Choice::Quiet => self.quiet,
            Choice::Stdout => self.stdout,
            Choice::Raw => self.raw,
            Choice::Mark => self.mark.is_some(),
            Choice::Edition => self.edition.is_some(),
            Choice::Map => self.map,
        }
    }

    // Takes an option that is given: the number after it, where it takes one. None where that is none, and an error was printed.
    fn take<R: System>(&mut self, rt: &R, out: &mut Answer, choice: Choice) -> Option<()> {
        let i = self.place(1);
        match choice {
            Choice::From => self.from = Some(at_most(rt, out, i, "--from", u64::MAX)?),
            Choice::Pages => self.pages = Some(at_most(rt, out, i, "--pages", u64::MAX)?),
            Choice::Page => self.page = Some(at_most(rt, out, i, "--page", u64::MAX)?),
            Choice::Mark => self.mark = u32::try_from(at_most(rt, out, i, "--mark", WORD)?).ok(),
            Choice::Edition => self.edition = Some(at_most(rt, out, i, "--edition", u64::MAX)?),
            Choice::Quiet => self.quiet = true,
            Choice::Stdout => self.stdout = true,
            Choice::Raw => self.raw = true,
            Choice::Map => self.map = true,
        }
        self.at = self.place(if choice.has_number() { 2 } else { 1 });
        Some(())
    }

    // Takes the option at the next place: none where it is not among those allowed or was given before, and an error was printed.
    fn next<R: System>(&mut self, rt: &R, out: &mut Answer, allowed: &[Choice]) -> Option<()> {
        let mut buffer = text::buffer::<4096>();
        let name = argument(rt, self.at, &mut buffer);
        let found = Choice::named(name).filter(|choice| allowed.contains(choice));
        let Some(choice) = found else {
            out.bad_argument(rt, "option", name, "is none of this command's");
            return None;
        };
        if self.has(choice) {
            out.bad_argument(rt, "option", name, "is given twice");
            return None;
        }
        self.take(rt, out, choice)
    }
}

// Whether argument i starts with two dashes.
fn is_option<R: System>(rt: &R, i: usize) -> bool {
    let mut given = text::buffer::<4096>();
    argument(rt, i, &mut given);
    given.starts_with(b"--")
}

// The options between the command and its arguments, of which only those allowed may be given. None where an error was printed.
pub fn find_options<R: System>(rt: &R, out: &mut Answer, allowed: &[Choice]) -> Option<Options> {
    let mut options = Options::none(place(command(rt), 1));
    for _ in 0..16 {
        if !is_option(rt, options.at) {
            break;
        }
        options.next(rt, out, allowed)?;
    }
    Some(options)
}
