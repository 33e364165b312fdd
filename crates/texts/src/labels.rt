// The label types of graph texts: codes and pay labels.

ghost use Rattle.std.specs.Prelude.{◌≡◌};
ghost use Rattle.grammar.proofs.Forms.{code_faithful, pay_faithful};
ghost use Rattle.grammar.specs.Labels.{Form, Faithful, code_form, pay_form};

use grammar::Range;
use graphs::{Code, HIGHEST_CODE, LOWEST_CODE, Pay};

// The numbers that a code or a kind may be.
pub const CODES: Range = Range {
    start: LOWEST_CODE as usize,
    end: HIGHEST_CODE as usize + 1,
};

// The numbers that an amount in pence may be.
pub const PENCE: Range = Range {
    start: 0,
    end: 1_000_000_000,
};

// A type of labels, written in one or two fields of numbers.
pub trait Label: Copy {
    // The fields, what each allows, and how a label and its numbers belong together.
    ghost form: { Form Self };

    // The numbers that the first field allows.
    fn first() -> Range
        ensures { result ≡ form.first };

    // The numbers that the second field allows, where there is a second field.
    fn second() -> Option<Range>
        ensures { result ≡ form.second };

    // The label that the fields' numbers make; a type of one field passes over the second.
    // An Option would be no plainer: a type of two fields would have to make a label without the second, too.
    fn make(first: u32, second: u32) -> Self
        ensures { result ≡ form.make first second };

    // A label and its numbers say the same, whatever the type.
    ghost faithful: { Faithful form };
}

impl Label for Code {
    ghost form = { code_form };

    ghost faithful = { code_faithful };

    fn first() -> Range {
        CODES
    }

    fn second() -> Option<Range> {
        None
    }

    fn make(first: u32, _second: u32) -> Code {
        Code { number: first }
    }
}

impl Label for Pay {
    ghost form = { pay_form };

    ghost faithful = { pay_faithful };

    fn first() -> Range {
        CODES
    }

    fn second() -> Option<Range> {
        Some(PENCE)
    }

    fn make(first: u32, second: u32) -> Pay {
        Pay {
            kind: first,
            pence: second,
        }
    }
}
