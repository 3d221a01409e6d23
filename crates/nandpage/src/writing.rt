// The command write of the tool: a page, or an image of many, from files that hold the metadata and the data of all pages, one after
// the other.
use arguments::{Choice, Options};
use files::Reading;
use layout_plan::Plan;
use plans::Planned;
use replies::refusal_number;
use say::Answer;
use std::io;
use std::io::{Error, ErrorKind};
use streams::{Sink, Source, System};

// The edition, the layout record and its plan; metadata, data, the page that is written and the file that stands in its place.
#[derive(Clone, Copy)]
struct Run<'a> {
    edition: u64,
    record: [u8; 12],
    plan: Plan,
    metadata: Source<'a>,
    data: Source<'a>,
    page: Sink<'a>,
    before: Source<'a>,
}

// What the metadata, the data and the page are called.
#[derive(Clone, Copy)]
struct Paths<'a> {
    metadata: &'a [u8],
    data: &'a [u8],
    page: &'a [u8],
}

// Why an image is not written: a page or the length of a file is refused, which was printed, or a file failed.
#[derive(Clone, Copy)]
enum Failed {
    Refused,
    Metadata(Error),
    Data(Error),
    Page(Error),
}

// Files of other lengths than those of whole pages, after so many pages. A page of an image has its number shown; a file of one page has none.
fn refused(
    out: &mut Answer,
    plan: Plan,
    pages: u64,
    reply: u8,
    metadata: usize,
    data: usize,
) -> Failed {
    if 0 < pages {
        out.page_number(pages);
    }
    out.reply(reply);
    out.put(say::meaning(reply));
    if reply == 6 {
        out.length(": metadata ", metadata, plan.metadata as usize);
        out.length(", data ", data, plan.data as usize);
    }
    out.put("\n");
    Failed::Refused
}

// Puts to the buffer what the next page is written over, since it keeps the mark of that: the page that stands in its place or, where none
// does, ones, as erased flash has.
fn lay(run: Run<'_>, page: &mut [u8]) -> io::Result<()> {
    if run.plan.mark.length != 0 && streams::fill(run.before, page, 0)? < page.len() {
        page.fill(255);
    }
    Ok(())
}

// Writes the next page after so many.
fn write_from(
    out: &mut Answer,
    run: Run<'_>,
    pages: u64,
    metadata: &[u8],
    data: &[u8],
    page: &mut [u8],
) -> Result<(), Failed> {
    lay(run, page).map_err(Failed::Page)?;
    match page_write::write_page(run.edition, &run.record, metadata, data, page) {
        Ok(()) => streams::put(run.page, page).map_err(Failed::Page),
        Err(refusal) => {
            let reply = refusal_number(refusal);
            Err(refused(out, run.plan, pages, reply, metadata.len(), data.len()))
        }
    }
}

// How many bytes of both files there are, up to those that the buffers hold.
fn read(run: Run<'_>, metadata: &mut [u8], data: &mut [u8]) -> Result<(usize, usize), Failed> {
    let m = streams::fill(run.metadata, metadata, 0).map_err(Failed::Metadata)?;
    let d = streams::fill(run.data, data, 0).map_err(Failed::Data)?;
    Ok((m, d))
}

// Writes the next page after so many: whether there was one. An image ends where both files do, after its first page. A file of which a page
// takes nothing has to be empty.
fn next(
    out: &mut Answer,
    run: Run<'_>,
    pages: u64,
    metadata: &mut [u8],
    data: &mut [u8],
    page: &mut [u8],
) -> Result<bool, Failed> {
    let (m, d) = read(run, metadata, data)?;
    if pages == 0 || m != 0 || d != 0 {
        write_from(
            out,
            run,
            pages,
            text::front(metadata, m),
            text::front(data, d),
            page,
        )?;
        return Ok(true);
    }
    let (m, d) = read(run, &mut [0u8; 1], &mut [0u8; 1])?;
    if m != 0 || d != 0 {
        return Err(refused(out, run.plan, pages, 6, m, d));
    }
    Ok(false)
}

// Writes page after page, as far as the files go: how many. The buffers are as long as the metadata and the data of a page, and as a page.
fn pages(
    out: &mut Answer,
    run: Run<'_>,
    metadata: &mut [u8],
    data: &mut [u8],
    page: &mut [u8],
) -> Result<u64, Failed> {
    for pages in 0..u64::MAX {
        if !next(out, run, pages, metadata, data, page)? {
            return Ok(pages);
        }
    }
    Ok(u64::MAX)
}

fn all(out: &mut Answer, run: Run<'_>) -> Result<u64, Failed> {
    let plan = run.plan;
    let mut metadata = [0u8; 256];
    let mut data = text::buffer::<65536>();
    let mut page = text::buffer::<65536>();
    pages(
        out,
        run,
        text::front_mut(&mut metadata, plan.metadata as usize),
        text::front_mut(&mut data, plan.data as usize),
        text::front_mut(&mut page, plan.size as usize),
    )
}

// The line of a file that failed, and why.
fn complain<R: System>(rt: &R, out: &mut Answer, failed: Failed, paths: Paths<'_>) {
    match failed {
        Failed::Refused => (),
        Failed::Metadata(error) => out.bad_file(rt, paths.metadata, error),
        Failed::Data(error) => out.bad_file(rt, paths.data, error),
        Failed::Page(error) => out.bad_output(rt, paths.page, error),
    }
}

// What was written, where it has taken its place.
fn written(out: &mut Answer, plan: Plan, pages: u64) {
    out.reply(0);
    if pages == 1 {
        out.put(format_args!("page written, {} bytes\n", plan.size));
    } else {
        let bytes = text::times(pages, plan.size as u32);
        out.put(format_args!("pages written {pages}, {bytes} bytes\n"));
    }
}

// Writes an image, and puts one that is whole in its place.
fn write_run<R: System>(rt: &R, out: &mut Answer, run: Run<'_>, paths: Paths<'_>) {
    if files::is_dash(paths.page) {
        out.to_stderr();
    }
    let n = arguments::run_number(rt);
    match all(out, run) {
        Ok(pages) => {
            if files::end(rt, out, run.page, paths.page) && files::place(rt, out, paths.page, n) {
                written(out, run.plan, pages);
                return;
            }
        }
        Err(failed) => complain(rt, out, failed, paths),
    }
    files::drop_new(rt, paths.page, n);
}

// A file that is read, where a dash is an empty one: none where an error was printed.
fn input<R: System>(rt: &R, out: &mut Answer, path: &[u8]) -> Option<Reading> {
    if files::is_dash(path) {
        return Some(Reading::Nothing);
    }
    files::input(rt, out, path)
}

// The file that stands in the place of a page with a mark, where there is one: none where an error was printed.
fn standing<R: System>(rt: &R, out: &mut Answer, plan: Plan, path: &[u8]) -> Option<Reading> {
    if plan.mark.length == 0 || files::is_dash(path) || files::is_direct(path) {
        return Some(Reading::Nothing);
    }
    match files::open_read(rt, path) {
        Ok(file) => Some(Reading::File(file)),
        Err(error) => {
            if error.kind() == ErrorKind::NotFound {
                return Some(Reading::Nothing);
            }
            out.bad_output(rt, path, error);
            None
        }
    }
}

// Writes an image from files to a file: none where an error of a file that is opened was printed.
fn write_paths<R: System>(
    rt: &R,
    out: &mut Answer,
    planned: Planned,
    paths: Paths<'_>,
) -> Option<()> {
    let Planned { words, plan } = planned;
    let metadata = input(rt, out, paths.metadata)?;
    let data = input(rt, out, paths.data)?;
    let before = standing(rt, out, plan, paths.page)?;
    let page = files::begin(rt, out, paths.page, arguments::run_number(rt))?;
    let run = Run {
        edition: words.edition,
        record: words.record(),
        plan,
        metadata: files::source(&metadata),
        data: files::source(&data),
        page: files::sink(&page),
        before: files::source(&before),
    };
    write_run(rt, out, run, paths);
    Some(())
}

// Writes an image from the files that the arguments name: none where an error was printed.
fn write_image<R: System>(rt: &R, out: &mut Answer, options: &Options) -> Option<()> {
    let planned = plans::plan_of_words(rt, out, *options)?;
    let mut metadata = text::buffer::<4096>();
    let mut data = text::buffer::<4096>();
    let mut page = text::buffer::<4096>();
    let paths = Paths {
        metadata: arguments::given(rt, out, options.place(2), "METADATA", &mut metadata)?,
        data: arguments::given(rt, out, options.place(3), "DATA", &mut data)?,
        page: arguments::given(rt, out, options.place(4), "PAGE", &mut page)?,
    };
    write_paths(rt, out, planned, paths)
}

// Runs the command by its arguments: none where an error was printed.
fn try_write<R: System>(rt: &R, out: &mut Answer) -> Option<()> {
    let options = arguments::find_options(rt, out, &[Choice::Mark, Choice::Edition])?;
    let usage = "usage: nandpage write [--edition N] [--mark WORD2] WORD0 WORD1 METADATA DATA PAGE";
    if !arguments::are(rt, out, options.at, 5, usage) {
        return None;
    }
    write_image(rt, out, &options)
}

// nandpage write [--edition N] [--mark WORD2] WORD0 WORD1 METADATA DATA PAGE
#[inline(never)]
pub fn write<R: System>(rt: &R, out: &mut Answer) {
    let _ = try_write(rt, out);
}
