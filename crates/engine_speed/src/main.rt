// Measures the engine: a dozen related patterns are cut, and their rows listed over sheets of growing size at constant degree. `engine_speed VERTICES..`. What is found and how often the sheet was asked goes to standard output, and times to standard error.
#![tactic(auto)]

mod counting;
mod models;
mod sheet;

use anyhow::anyhow;
use counting::CountingSheet;
use engine_cases::book::with_sample;
use engine_cases::samples::{Sample, pattern};
use graphs::Pay;
use keys::SameKind;
use models::{ALONE, LARGE, Model, SHARED};
use network::SweepRefusal;
use network::book::Book;
use sheet::make_sample;
use sheets::sheet::Sheet;
use std::cell::Cell;
use std::env;
use std::time::Instant;
use writing::{Listing, list_rows};

// The longest lists that the rules allow.
const ROOM: usize = 1_000_000;

fn cut_all(rt: &HostRuntime, book: &mut Book, models: &[Model]) -> anyhow::Result<()> {
    for model in models {
        let pattern = pattern(rt.alloc(), model.codes, model.links)?;
        *book = with_sample(book, &pattern).map_err(|_| anyhow!("a pattern was refused"))?;
    }
    Ok(())
}

// Lists the rows of all patterns, and says how many milliseconds that took.
fn time_listing<S: Sheet<Label = Pay>>(
    rt: &HostRuntime,
    book: &Book,
    sheet: &S,
    work: &mut [usize],
    rows: &mut [usize],
) -> anyhow::Result<(Result<Listing, SweepRefusal>, u128)> {
    let start = Instant::now(rt)?;
    let listed = list_rows(book, sheet, &SameKind, work, rows);
    let time = start.elapsed(rt)?.as_millis();
    Ok((listed, time))
}

// Measures a listing without room for rows, which fills and clears the work list, and one with room.
fn measure(rt: &HostRuntime, book: &Book, sample: &Sample<Pay>) -> anyhow::Result<()> {
    let heap = rt.alloc();
    let table = sample.sheet();
    let sheet = CountingSheet {
        below: &table,
        labels: Cell::new(0),
        ties: Cell::new(0),
    };
    let n = sheet.size();
    let mut work = vec![in heap; 0; ROOM]?;
    let mut rows = vec![in heap; 0; ROOM]?;
    let (_, filled) = time_listing(rt, book, &sheet, work.as_mut_slice(), &mut [])?;
    let labels = sheet.labels.get();
    let ties = sheet.ties.get();
    let (listed, whole) = time_listing(rt, book, &sheet, work.as_mut_slice(), rows.as_mut_slice())?;
    match listed {
        Ok(Listing { rows, numbers }) => {
            println!(rt; "{n} vertices: {rows} rows, {numbers} numbers")?;
        }
        Err(refusal) => println!(rt; "{n} vertices: {refusal:?}")?,
    }
    println!(rt; "{n} vertices: asked for {labels} labels and {ties} ties")?;
    eprintln!(rt; "{n} vertices: {filled} ms to fill, {whole} ms to fill and write")?;
    Ok(())
}

fn run(rt: &HostRuntime) -> anyhow::Result<()> {
    let start = Instant::now(rt)?;
    let mut book = Book::blank();
    for models in [ALONE, SHARED, LARGE] {
        cut_all(rt, &mut book, &models)?;
    }
    let cut = start.elapsed(rt)?.as_micros();
    let patterns = book.tables.patterns.as_slice().len();
    let pieces = book.tables.pieces.as_slice().len();
    println!(rt; "{patterns} patterns, {pieces} pieces")?;
    eprintln!(rt; "{cut} microseconds to cut them")?;
    for word in env::args(rt)?.skip(1) {
        let vertices = word.as_str().parse::<usize>()?;
        let sample = make_sample(rt.alloc(), vertices / 4)?;
        measure(rt, &book, &sample)?;
    }
    Ok(())
}

fn main(rt: HostRuntime) -> anyhow::Result<()> {
    run(&rt)
}
