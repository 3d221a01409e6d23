// A page from a file: the whole file, or one page of a dump.
use arguments::Options;
use layout_plan::Plan;
use say::Answer;
use std::io;
use streams::{Source, System};

// Page k of a dump, of which at least a byte is there: none where the dump has no such page.
fn from_dump<R: System>(
    rt: &R,
    plan: Plan,
    k: u64,
    source: Source<'_>,
    page: &mut [u8],
) -> io::Result<Option<usize>> {
    if !files::pass(rt, source, page, plan.size, k)? {
        return Ok(None);
    }
    let n = streams::fill(source, page, 0)?;
    Ok((0 < n).then_some(n))
}

// A file as a page: one byte more than a page is read, so that a longer file is known.
fn from_file<R: System>(
    rt: &R,
    options: &Options,
    plan: Plan,
    source: Source<'_>,
    page: &mut [u8],
) -> io::Result<Option<usize>> {
    let size = plan.size as usize;
    match options.page {
        Some(k) => from_dump(rt, plan, k, source, text::front_mut(page, size)),
        None => Ok(Some(streams::fill(source, text::front_mut(page, size + 1), 0)?)),
    }
}

// How many bytes of the page of a file are in the buffer: none where an error was printed.
fn from_path<R: System>(
    rt: &R,
    out: &mut Answer,
    options: &Options,
    plan: Plan,
    path: &[u8],
    page: &mut [u8],
) -> Option<usize> {
    let input = files::input(rt, out, path)?;
    match from_file(rt, options, plan, files::source(&input), page) {
        Ok(Some(n)) => Some(n),
        Ok(None) => {
            out.bad_argument(rt, "PAGE", path, "has no such page");
            None
        }
        Err(error) => {
            out.bad_file(rt, path, error);
            None
        }
    }
}

// The page that the argument after the layout words names, in the buffer: none where an error was printed. A dash is standard input.
pub fn load<'a, R: System>(
    rt: &R,
    out: &mut Answer,
    options: &Options,
    plan: Plan,
    page: &'a mut [u8],
) -> Option<&'a [u8]> {
    let mut buffer = text::buffer::<4096>();
    let path = arguments::given(rt, out, options.place(2), "PAGE", &mut buffer)?;
    let n = from_path(rt, out, options, plan, path, page)?;
    Some(text::front(page, n))
}
