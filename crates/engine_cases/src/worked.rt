// Two patterns, fork and split, whose rows in a sheet are worked out by hand.

use crate::book::with_sample;
use crate::samples::{Sample, pattern, pay};
use graphs::{Code, Pay, Tie};
use keys::SameKind;
use network::SweepRefusal;
use network::book::Book;
use std::alloc::{AllocError, Global};
use std::test::Fail;
use writing::{Listing, list_rows};

// Two of code 10, each tied to one of code 20.
fn fork(heap: Global) -> Result<Sample<Code>, AllocError> {
    pattern(heap, &[10, 10, 20], &[(0, 2, 30), (1, 2, 30)])
}

// One of code 10, tied to each of two of code 20.
fn split(heap: Global) -> Result<Sample<Code>, AllocError> {
    pattern(heap, &[20, 10, 20], &[(1, 0, 30), (1, 2, 30)])
}

fn tie(from: usize, to: usize) -> Tie<Pay> {
    Tie {
        from,
        to,
        label: pay(30),
    }
}

// Two of kind 10 and two of kind 20: the first of kind 10 is tied to the first of kind 20, and the second to both.
fn sample(heap: Global) -> Result<Sample<Pay>, AllocError> {
    Ok(Sample {
        labels: vec![in heap; pay(10), pay(10), pay(20), pay(20)]?,
        ties: vec![in heap; tie(0, 2), tie(1, 2), tie(1, 3)]?,
    })
}

#[test]
fn fork_and_split_are_listed(rt: HostRuntime) -> Result<(), Fail> {
    let heap = rt.alloc();
    let book = with_sample(&Book::blank(), &fork(heap)?)?;
    assert_eq!(rt; book.tables.pieces.as_slice().len(), 4);
    let book = with_sample(&book, &split(heap)?)?;
    assert_eq!(rt; book.tables.pieces.as_slice().len(), 5);
    let sample = sample(heap)?;
    let sheet = sample.sheet();
    let mut work = [7; 22];
    let mut rows = [9; 17];
    let listed = list_rows(&book, &sheet, &SameKind, &mut work, &mut rows);
    assert_eq!(rt;
        listed,
        Ok(Listing {
            rows: 4,
            numbers: 16,
        })
    );
    assert_eq!(rt; rows, [0, 0, 1, 2, 0, 1, 0, 2, 1, 2, 1, 3, 1, 3, 1, 2, 9]);
    assert_eq!(rt; work, [0; 22]);
    Ok(())
}

#[test]
fn short_lists_are_refused(rt: HostRuntime) -> Result<(), Fail> {
    let heap = rt.alloc();
    let book = with_sample(&Book::blank(), &fork(heap)?)?;
    let book = with_sample(&book, &split(heap)?)?;
    let sample = sample(heap)?;
    let sheet = sample.sheet();
    let mut work = [7; 21];
    let mut rows = [9; 15];
    let heavy = list_rows(&book, &sheet, &SameKind, &mut work, &mut rows);
    assert_eq!(rt; heavy, Err(SweepRefusal::TooHeavy));
    assert_eq!(rt; work, [0; 21]);
    let mut work = [7; 22];
    let short = list_rows(&book, &sheet, &SameKind, &mut work, &mut rows);
    assert_eq!(rt; short, Err(SweepRefusal::RowsTooMany));
    assert_eq!(rt; rows, [9; 15]);
    assert_eq!(rt; work, [0; 22]);
    Ok(())
}
