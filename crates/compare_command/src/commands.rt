// The command.
use crate::lines::Format;
use crate::{lines, running};
use arguments::{Choice, Options};
use compare_totals::{Failed, Run};
use layout_plan::Plan;
use replies::refusal_number;
use say::Answer;
use streams::{Source, System};

fn run_of<'a, R: System>(
    rt: &R,
    options: &Options,
    plan: Plan,
    first: Source<'a>,
    second: Source<'a>,
) -> Run<'a> {
    Run {
        first,
        second,
        from: options.from(),
        most: options.pages(),
        known: dump_progress::known(
            files::pages_left(rt, first, plan.size),
            options.from(),
            options.pages(),
        ),
        began: dump_progress::seconds(rt),
        quiet: options.quiet,
        map: options.map,
    }
}

// Compares two files, or maps the first where there is no second: none where an error of a file that is opened was printed. With a map and with
// a range they are taken as dumps however long they are.
fn compare_paths<R: System>(
    rt: &R,
    out: &mut Answer,
    options: &Options,
    format: Format<'_>,
    first: &[u8],
    second: Option<&[u8]>,
) -> Option<()> {
    let a = files::input(rt, out, first)?;
    let b = match second {
        Some(path) => files::input(rt, out, path)?,
        None => files::Reading::Nothing,
    };
    let run = run_of(
        rt,
        options,
        format.plan,
        files::source(&a),
        files::source(&b),
    );
    let dump = options.map || options.is_ranged();
    match running::compare_files(rt, out, run, format, dump) {
        Ok(()) => (),
        Err(Failed::First(error)) => out.bad_file(rt, first, error),
        Err(Failed::Second(error)) => {
            if let Some(path) = second {
                out.bad_file(rt, path, error);
            }
        }
    }
    Some(())
}

// Compares the files that the arguments name, `one` of them where the map of one dump is asked for: none where an error was printed.
fn compare_under<R: System>(
    rt: &R,
    out: &mut Answer,
    options: &Options,
    format: Format<'_>,
    one: bool,
) -> Option<()> {
    let mut buffer = text::buffer::<4096>();
    let first = arguments::given(rt, out, options.place(2), "FIRST", &mut buffer)?;
    if one {
        return compare_paths(rt, out, options, format, first, None);
    }
    let mut buffer = text::buffer::<4096>();
    let second = arguments::given(rt, out, options.place(3), "SECOND", &mut buffer)?;
    if files::is_dash(first) && files::is_dash(second) {
        out.error(rt, "only one of FIRST and SECOND is a dash");
        return None;
    }
    compare_paths(rt, out, options, format, first, Some(second))
}

// Runs the command by its arguments: none where an error was printed.
fn try_compare<R: System>(rt: &R, out: &mut Answer) -> Option<()> {
    let allowed = [
        Choice::Mark,
        Choice::Edition,
        Choice::From,
        Choice::Pages,
        Choice::Quiet,
        Choice::Map,
    ];
    let options = arguments::find_options(rt, out, &allowed)?;
    let one = options.map && arguments::count(rt) == options.place(3);
    let usage =
        "usage: nandpage compare [--edition N] [--mark WORD2] [--from N] [--pages M] [--quiet] [--map] WORD0 WORD1 FIRST SECOND";
    if !one && !arguments::are(rt, out, options.at, 4, usage) {
        return None;
    }
    let words = options.layout_words(rt, out)?;
    match Format::new(words.edition, &words.record()) {
        Ok(format) => compare_under(rt, out, &options, format, one),
        Err(refusal) => {
            lines::refused(out, refusal_number(refusal));
            None
        }
    }
}

// nandpage compare [--edition N] [--mark WORD2] [--from N] [--pages M] [--quiet] WORD0 WORD1 FIRST SECOND
// nandpage compare --map [--edition N] [--mark WORD2] [--from N] [--pages M] WORD0 WORD1 FIRST [SECOND]
#[inline(never)]
pub fn compare<R: System>(rt: &R, out: &mut Answer) {
    let _ = try_compare(rt, out);
}
