// Short ways to write codes and ties.

use graphs::{Code, Tie};

pub(crate) fn code(number: u32) -> Code {
    Code { number }
}

pub(crate) fn tie(from: usize, to: usize, number: u32) -> Tie<Code> {
    Tie {
        from,
        to,
        label: code(number),
    }
}
