// Measures how long the graph reader takes for the longest texts: what was read goes to standard output, and the time to standard error.
#![tactic(auto)]

use grammar::Counts;
use graphs::{Code, Tie};
use std::alloc::{AllocError, Global};
use std::time::Instant;
use texts::{MOST_BYTES, read_graph};

const NO_CODE: Code = Code { number: 0 };

// How many vertices the text of ties has: enough for as many different pairs as fit.
const ENDS: usize = 310;

// How many vertex lines, of four bytes each, fit between the first line and the last, which have six.
const ROWS: usize = (MOST_BYTES - 6) / 4;

// As many vertex lines as fit.
fn vertices_text(heap: Global) -> Result<String, AllocError> {
    let mut text = String::with_capacity(heap, MOST_BYTES)?;
    text.push_str("g\t1\n")?;
    for _ in 0..ROWS {
        text.push_str("n\t7\n")?;
    }
    text.push_str("e\n")?;
    Ok(text)
}

// As many tie lines as fit, each with another pair.
fn ties_text(heap: Global) -> Result<String, AllocError> {
    let mut text = String::with_capacity(heap, MOST_BYTES)?;
    text.push_str("g\t1\n")?;
    for _ in 0..ENDS {
        text.push_str("n\t7\n")?;
    }
    for from in 0..ENDS {
        for to in 0..ENDS {
            if from != to && text.len() < MOST_BYTES - 20 {
                write!(text, "t\t{from}\t{to}\t5\n")?;
            }
        }
    }
    text.push_str("e\n")?;
    Ok(text)
}

// Reads a text and says what it has and how long that took.
fn measure(rt: &HostRuntime, name: &str, text: &[u8]) -> anyhow::Result<()> {
    let heap = rt.alloc();
    let tie = Tie {
        from: 0,
        to: 0,
        label: NO_CODE,
    };
    let mut vertices = vec![in heap; NO_CODE; 250_000]?;
    let mut ties = vec![in heap; tie; 100_000]?;
    let start = Instant::now(rt)?;
    let read = read_graph(text, 1, vertices.as_mut_slice(), ties.as_mut_slice());
    let time = start.elapsed(rt)?;
    let micros = time.as_micros();
    match read {
        Ok(Counts { vertices, ties }) => println!(rt; "{name}: {vertices} vertices, {ties} ties")?,
        Err(_) => println!(rt; "{name}: refused")?,
    }
    eprintln!(rt; "{name}: {micros} microseconds")?;
    Ok(())
}

fn run(rt: &HostRuntime) -> anyhow::Result<()> {
    let heap = rt.alloc();
    let vertices = vertices_text(heap)?;
    measure(rt, "vertices", vertices.as_bytes())?;
    let ties = ties_text(heap)?;
    measure(rt, "ties", ties.as_bytes())
}

fn main(rt: HostRuntime) -> anyhow::Result<()> {
    run(&rt)
}
