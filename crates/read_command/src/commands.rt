// The commands: a page, or a dump of many.
use crate::running;
use arguments::{Choice, Options};
use files::Writing;
use plans::Planned;
use read_outputs::Paths;
use read_totals::{Run, Totals};
use say::Answer;
use streams::{Source, System};

// What is asked for.
#[derive(Clone, Copy, PartialEq, Eq)]
enum Command {
    Read,
    Look,
    Salvage,
}

// A command with its options, its layout words and the plan of a page under them.
#[derive(Clone, Copy)]
struct Asked {
    command: Command,
    options: Options,
    planned: Planned,
}

// The outputs of a run, each nothing where it is not wanted.
#[derive(Drop)]
struct Outputs {
    metadata: Writing,
    data: Writing,
    list: Writing,
}

// An output, which is nothing where it is not wanted: none where an error was printed.
fn output<R: System>(rt: &R, out: &mut Answer, path: &[u8]) -> Option<Writing> {
    if files::is_dash(path) {
        return Some(Writing::Nothing);
    }
    files::begin(rt, out, path, arguments::run_number(rt))
}

// Begins the outputs: none where an error was printed. The data goes to standard output where that is asked for.
fn begin<R: System>(
    rt: &R,
    out: &mut Answer,
    options: &Options,
    paths: Paths<'_>,
) -> Option<Outputs> {
    Some(Outputs {
        metadata: output(rt, out, paths.metadata)?,
        data: if options.stdout && files::is_dash(paths.data) {
            Writing::Standard(rt.output())
        } else {
            output(rt, out, paths.data)?
        },
        list: output(rt, out, paths.list)?,
    })
}

fn run_of<'a, R: System>(rt: &R, asked: Asked, input: Source<'a>, outputs: &'a Outputs) -> Run<'a> {
    let Asked {
        command,
        options,
        planned,
    } = asked;
    let Planned { words, plan } = planned;
    Run {
        edition: words.edition,
        record: words.record(),
        plan,
        input,
        metadata: files::sink(&outputs.metadata),
        data: files::sink(&outputs.data),
        list: files::sink(&outputs.list),
        dump: command == Command::Salvage || options.is_ranged(),
        first: options.from(),
        most: options.pages(),
        known: dump_progress::known(
            files::pages_left(rt, input, plan.size),
            options.from(),
            options.pages(),
        ),
        began: dump_progress::seconds(rt),
        quiet: options.quiet,
        look: command == Command::Look,
        raw: options.raw,
    }
}

// Runs a command on files, of which those that are not wanted are dashes: none where an error of a file that is opened was printed.
fn run_paths<R: System>(rt: &R, out: &mut Answer, asked: Asked, paths: Paths<'_>) -> Option<()> {
    let input = files::input(rt, out, paths.page)?;
    let Some(outputs) = begin(rt, out, &asked.options, paths) else {
        paths.drop_all(rt);
        return None;
    };
    let run = run_of(rt, asked, files::source(&input), &outputs);
    let mut totals = Totals::start(run.began);
    let ended = running::read_file(rt, out, run, &mut totals);
    paths.finish(rt, out, run, &totals, ended);
    Some(())
}

// Whether the outputs are what the command and the options want; an error is printed where not. Where the data goes to standard output, the
// answer goes to standard error.
fn fit<R: System>(rt: &R, out: &mut Answer, asked: &Asked, paths: Paths<'_>) -> bool {
    if asked.command == Command::Salvage && files::is_dash(paths.list) {
        out.error(rt, "LIST is a file, and no dash");
        return false;
    }
    if asked.options.stdout {
        if !files::is_dash(paths.data) {
            out.error(rt, "with --stdout DATA is a dash");
            return false;
        }
        out.to_stderr();
    }
    true
}

// Runs a command on files where they are what it wants: none where an error was printed.
fn run_fit<R: System>(rt: &R, out: &mut Answer, asked: Asked, paths: Paths<'_>) -> Option<()> {
    if !fit(rt, out, &asked, paths) {
        return None;
    }
    run_paths(rt, out, asked, paths)
}

// Runs a command on the files that the arguments name, a dash for those that it does not have: none where an error was printed.
fn run_asked<R: System>(rt: &R, out: &mut Answer, asked: Asked) -> Option<()> {
    let options = asked.options;
    let command = asked.command;
    let mut buffer = text::buffer::<4096>();
    let page = arguments::given(rt, out, options.place(2), "PAGE", &mut buffer)?;
    if command == Command::Look {
        let paths = Paths {
            page,
            metadata: b"-",
            data: b"-",
            list: b"-",
        };
        return run_paths(rt, out, asked, paths);
    }
    let mut buffer = text::buffer::<4096>();
    let metadata = arguments::given(rt, out, options.place(3), "METADATA", &mut buffer)?;
    let mut buffer = text::buffer::<4096>();
    let data = arguments::given(rt, out, options.place(4), "DATA", &mut buffer)?;
    if command == Command::Read {
        let paths = Paths {
            page,
            metadata,
            data,
            list: b"-",
        };
        return run_fit(rt, out, asked, paths);
    }
    let mut buffer = text::buffer::<4096>();
    let list = arguments::given(rt, out, options.place(5), "LIST", &mut buffer)?;
    let paths = Paths {
        page,
        metadata,
        data,
        list,
    };
    run_fit(rt, out, asked, paths)
}

impl Command {
    // The options that the command is given, of those that it may have: none where an error was printed.
    fn options<R: System>(self, rt: &R, out: &mut Answer) -> Option<Options> {
        match self {
            Command::Read => arguments::find_options(
                rt,
                out,
                &[
                    Choice::Mark,
                    Choice::Edition,
                    Choice::From,
                    Choice::Pages,
                    Choice::Quiet,
                    Choice::Stdout,
                ],
            ),
            Command::Look => arguments::find_options(
                rt,
                out,
                &[
                    Choice::Mark,
                    Choice::Edition,
                    Choice::From,
                    Choice::Pages,
                    Choice::Quiet,
                ],
            ),
            Command::Salvage => arguments::find_options(
                rt,
                out,
                &[
                    Choice::Mark,
                    Choice::Edition,
                    Choice::From,
                    Choice::Pages,
                    Choice::Quiet,
                    Choice::Raw,
                ],
            ),
        }
    }

    // How many arguments the command takes.
    fn arguments(self) -> usize {
        match self {
            Command::Read => 5,
            Command::Look => 3,
            Command::Salvage => 6,
        }
    }

    fn usage(self) -> &'static str {
        match self {
            Command::Read => {
                "usage: nandpage read [--edition N] [--mark WORD2] [--from N] [--pages M] [--quiet] [--stdout] WORD0 WORD1 PAGE METADATA DATA"
            }
            Command::Look => {
                "usage: nandpage look [--edition N] [--mark WORD2] [--from N] [--pages M] [--quiet] WORD0 WORD1 PAGE"
            }
            Command::Salvage => {
                "usage: nandpage salvage [--edition N] [--mark WORD2] [--raw] [--from N] [--pages M] [--quiet] WORD0 WORD1 PAGE METADATA DATA LIST"
            }
        }
    }

    // Runs the command: none where an error was printed.
    fn run<R: System>(self, rt: &R, out: &mut Answer) -> Option<()> {
        let options = self.options(rt, out)?;
        if !arguments::are(rt, out, options.at, self.arguments(), self.usage()) {
            return None;
        }
        let asked = Asked {
            command: self,
            options,
            planned: plans::plan_of_words(rt, out, options)?,
        };
        run_asked(rt, out, asked)
    }
}

// nandpage read [--edition N] [--mark WORD2] [--from N] [--pages M] [--quiet] [--stdout] WORD0 WORD1 PAGE METADATA DATA
#[inline(never)]
pub fn read<R: System>(rt: &R, out: &mut Answer) {
    let _ = Command::Read.run(rt, out);
}

// nandpage look [--edition N] [--mark WORD2] [--from N] [--pages M] [--quiet] WORD0 WORD1 PAGE
#[inline(never)]
pub fn look<R: System>(rt: &R, out: &mut Answer) {
    let _ = Command::Look.run(rt, out);
}

// nandpage salvage [--edition N] [--mark WORD2] [--raw] [--from N] [--pages M] [--quiet] WORD0 WORD1 PAGE METADATA DATA LIST
#[inline(never)]
pub fn salvage<R: System>(rt: &R, out: &mut Answer) {
    let _ = Command::Salvage.run(rt, out);
}
