// What can be wrong with a field, a line and a text. A definition gives each case its number.
#![tactic(auto)]

ghost use Rattle.std.specs.Prelude.{◌≡◌};
ghost use Rattle.faults.specs.Refusals.{trouble_number, line_fault_number, faulty_field, refusal_of};
ghost use Rattle.faults.specs.declared.LineFault.TheVariants.{InField};
ghost use Rattle.faults.specs.declared.TextFault.TheVariants.{InLine};

// What is wrong with a field.
#[derive(Clone, Copy, PartialEq, Eq, Debug)]
pub enum FieldTrouble {
    // It is no number.
    NoNumber,
    // Its number lies outside what the label allows there.
    OutOfRange,
    // It says another count of label fields than the wanted label type has.
    LabelCount,
    // It names a vertex that the text has not stated.
    MissingVertex,
}

// A faulty field of a line, by its number: 1 for the first.
#[derive(Clone, Copy, PartialEq, Eq, Debug)]
pub struct FieldFault {
    pub field: usize,
    pub trouble: FieldTrouble,
}

// What is wrong with a line.
#[derive(Clone, Copy, PartialEq, Eq, Debug)]
pub enum LineFault {
    // The text stops before its `e` line.
    TextStops,
    // The line has no line feed.
    NoLineFeed,
    // The line's first field is no letter that is allowed there.
    Letter,
    // The line has another count of fields than its letter asks.
    FieldCount,
    // One of the fields is faulty.
    InField(FieldFault),
    // The tie runs from a vertex to itself.
    OwnTie,
    // An earlier tie runs between the same vertices in the same direction.
    RepeatedPair,
    // The list that the line would fill is full.
    NoRoom,
}

// A faulty line of a text, by the text's number, which the caller gives, and its own: 1 for the first.
// The rules speak of texts 1 and 2 (a rule of the project), and the pointer has an answer for any other number.
#[derive(Clone, Copy, PartialEq, Eq, Debug)]
pub struct FaultyLine {
    pub text: usize,
    pub line: usize,
    pub fault: LineFault,
}

// What is wrong with a text.
#[derive(Clone, Copy, PartialEq, Eq, Debug)]
pub enum TextFault {
    // The text of this number has too many bytes.
    TooLong(usize),
    // One of its lines is faulty.
    InLine(FaultyLine),
}

// A refusal in numbers: what is wrong, and in which text, line and field, with 0 where there is none.
// The refusal line prints just these numbers (a rule of the project), so they are no enums and no options.
#[derive(Clone, Copy, PartialEq, Eq, Debug)]
pub struct Refusal {
    pub number: usize,
    pub text: usize,
    pub line: usize,
    pub field: usize,
}

// A field fault lies inside a line fault.
impl From<FieldFault> for LineFault {
    ghost from_gives = { λ fault r. r ≡ InField fault };

    fn from(fault: FieldFault) -> LineFault {
        LineFault::InField(fault)
    }
}

// A text fault holds the line fault whole.
impl From<FaultyLine> for TextFault {
    ghost from_gives = { λ fault r. r ≡ InLine fault };

    fn from(fault: FaultyLine) -> TextFault {
        TextFault::InLine(fault)
    }
}

impl FieldTrouble {
    // The number of the refusal: 5 or 6.
    pub fn number(self) -> usize
        ensures { result ≡ trouble_number self }
    {
        match self {
            FieldTrouble::NoNumber => 5,
            FieldTrouble::OutOfRange | FieldTrouble::LabelCount | FieldTrouble::MissingVertex => 6,
        }
    }
}

impl LineFault {
    // The number of the refusal: 2 to 8.
    pub fn number(self) -> usize
        ensures { result ≡ line_fault_number self }
    {
        match self {
            LineFault::TextStops | LineFault::NoLineFeed => 2,
            LineFault::Letter => 3,
            LineFault::FieldCount => 4,
            LineFault::InField(fault) => fault.trouble.number(),
            LineFault::OwnTie | LineFault::RepeatedPair => 7,
            LineFault::NoRoom => 8,
        }
    }

    // The faulty field of the line; none where the fault is the line's.
    pub fn field(self) -> Option<usize>
        ensures { result ≡ faulty_field self }
    {
        match self {
            LineFault::Letter => Some(1),
            LineFault::InField(fault) => Some(fault.field),
            _ => None,
        }
    }
}

impl TextFault {
    // The refusal in numbers. A text that is too long is refusal 1, in line 0.
    pub fn refusal(self) -> Refusal
        ensures { result ≡ refusal_of self }
    {
        match self {
            TextFault::TooLong(text) => Refusal {
                number: 1,
                text,
                line: 0,
                field: 0,
            },
            TextFault::InLine(faulty) => Refusal {
                number: faulty.fault.number(),
                text: faulty.text,
                line: faulty.line,
                field: faulty.fault.field().unwrap_or(0),
            },
        }
    }
}
