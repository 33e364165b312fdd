// What the tests share: reading a text into small lists.

use faults::TextFault;
use grammar::Counts;
use graphs::{Code, Pay, Tie};
use std::process::Abort;
use std::test::Fail;
use texts::read_graph;

pub const NO_CODE: Code = Code { number: 0 };

pub const NO_PAY: Pay = Pay { kind: 0, pence: 0 };

pub(crate) fn tie<L>(from: usize, to: usize, label: L) -> Tie<L> {
    Tie { from, to, label }
}

// Reads a text with codes, as text 1, where there is room for three vertices and two ties.
// One function over the label type was tried: no proof knows how large a local array of a type parameter is.
pub(crate) fn read_codes(text: &[u8]) -> Result<Counts, TextFault> {
    read_graph(text, 1, &mut [NO_CODE; 3], &mut [tie(0, 0, NO_CODE); 2])
}

// The same with pay labels, as text 2.
pub(crate) fn read_pay(text: &[u8]) -> Result<Counts, TextFault> {
    read_graph(text, 2, &mut [NO_PAY; 3], &mut [tie(0, 0, NO_PAY); 2])
}

// Checks that a text was refused with these numbers.
pub(crate) fn refused(
    rt: &impl Abort,
    read: Result<Counts, TextFault>,
    number: usize,
    line: usize,
    field: usize,
) -> Result<(), Fail> {
    match read {
        Ok(_) => Err(Fail::new("the text was taken")),
        Err(fault) => {
            let refusal = fault.refusal();
            assert_eq!(rt; refusal.number, number);
            assert_eq!(rt; refusal.line, line);
            assert_eq!(rt; refusal.field, field);
            Ok(())
        }
    }
}

// Checks that a text was taken with these counts.
pub(crate) fn taken(
    rt: &impl Abort,
    read: Result<Counts, TextFault>,
    vertices: usize,
    ties: usize,
) {
    assert_eq!(rt; read, Ok(Counts { vertices, ties }));
}
