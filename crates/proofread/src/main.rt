// Judges sheets and prints what it finds: `proofread FILE..`, or `sheet.tsv` where no file is named.
#![tactic(auto)]

use std::fs::File;
use std::io::Read;
use std::{env, io};
use verdicts::{MOST_FILE_BYTES, verdict};

// The file that is judged where none is named.
const DEFAULT_FILE: &str = "sheet.tsv";

// What a file holds, up to one byte more than is judged.
fn load(rt: &HostRuntime, name: &str) -> io::Result<Vec<u8>> {
    let file = File::open(rt, name)?;
    let mut bytes = Vec::new(rt.alloc());
    file.take(MOST_FILE_BYTES as u64 + 1)
        .read_to_end(&mut bytes)?;
    Ok(bytes)
}

// Judges one file and prints the verdict. A file that cannot be read is judged as an empty text.
fn proofread(rt: &HostRuntime, name: &str) -> anyhow::Result<()> {
    let text = match load(rt, name) {
        Ok(bytes) => bytes,
        Err(error) => {
            eprintln!(rt;
                "proofread: {name} cannot be read ({error}), so it is judged as an empty text"
            )?;
            Vec::new(rt.alloc())
        }
    };
    let said = verdict(rt.alloc(), name, text.as_slice())?;
    print!(rt; "{said}")?;
    Ok(())
}

fn run(rt: &HostRuntime) -> anyhow::Result<()> {
    let mut names = env::args(rt)?.skip(1).peekable();
    if names.peek().is_none() {
        return proofread(rt, DEFAULT_FILE);
    }
    for name in names {
        proofread(rt, name.as_str())?;
    }
    Ok(())
}

fn main(rt: HostRuntime) -> anyhow::Result<()> {
    run(&rt)
}
