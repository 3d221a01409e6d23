// The command locate.
use crate::remainder_at;
use arguments::{Choice, Options};
use replies::{Refusal, highest, offered, refusal_number};
use say::Answer;
use streams::System;

fn located(out: &mut Answer, list: &[u16]) {
    out.put(format_args!("reply 0: wrong bits {}, exponents", list.len()));
    for e in list {
        out.put(format_args!(" {e}"));
    }
    out.put("\n");
}

// Reply 7: there is no such edition, which is looked at first, or no such field.
fn unknown(edition: u64) -> &'static str {
    if offered(edition) {
        "FIELD is 0 for m = 13 or 1 for m = 14\n"
    } else {
        "there is no such edition, only 1 and 2\n"
    }
}

fn refused(out: &mut Answer, edition: u64, refusal: Refusal) {
    out.reply(refusal_number(refusal));
    match refusal {
        Refusal::OutOfRange => out.put(unknown(edition)),
        Refusal::LevelTooHigh => {
            out.put(format_args!("the level field is above {}\n", highest(edition)));
        }
        Refusal::EmptyMessage => out.put("there is no message: t = 0, or N is at most mt bits\n"),
        Refusal::BlockTooLong => {
            out.put("N is above 2^m - 1, the longest word of the field\n");
        }
        Refusal::BufferLength => out.put("the remainder has not mt / 8 bytes, rounded up\n"),
        Refusal::RemainderTooWide => out.put("the remainder has a one above bit mt - 1\n"),
        _ => out.put("uncorrectable, no t bits leave this remainder\n"),
    }
}

// The word that is asked about: its edition, level field, field and length.
#[derive(Clone, Copy)]
struct Word {
    edition: u64,
    level: u64,
    field: u64,
    n: u64,
}

impl Word {
    // Not inlined: the decoder's tables are to take no stack while the arguments are read.
    #[inline(never)]
    fn locate(self, out: &mut Answer, remainder: &[u8]) {
        let mut places = [0u16; 64];
        match bch::locate_errors(
            self.edition,
            self.level,
            self.field,
            self.n,
            remainder,
            &mut places,
        ) {
            Ok(count) => located(out, text::front(&places, count)),
            Err(refusal) => refused(out, self.edition, refusal),
        }
    }
}

// The word of the arguments after the options: none where an error was printed.
fn word_of<R: System>(rt: &R, out: &mut Answer, options: Options) -> Option<Word> {
    Some(Word {
        edition: options.edition(),
        level: arguments::number(rt, out, options.at, "LEVEL")?,
        field: arguments::number(rt, out, options.place(1), "FIELD")?,
        n: arguments::number(rt, out, options.place(2), "N")?,
    })
}

fn locate_at<R: System>(rt: &R, out: &mut Answer, options: Options) -> Option<()> {
    let word = word_of(rt, out, options)?;
    let mut buffer = [0u8; 128];
    let remainder = remainder_at(rt, out, options.place(3), &mut buffer)?;
    word.locate(out, remainder);
    Some(())
}

// nandpage locate [--edition N] LEVEL FIELD N REMAINDER
#[inline(never)]
pub fn locate<R: System>(rt: &R, out: &mut Answer) {
    let Some(options) = arguments::find_options(rt, out, &[Choice::Edition]) else {
        return;
    };
    if arguments::are(
        rt,
        out,
        options.at,
        4,
        "usage: nandpage locate [--edition N] LEVEL FIELD N REMAINDER",
    ) {
        let _ = locate_at(rt, out, options);
    }
}
