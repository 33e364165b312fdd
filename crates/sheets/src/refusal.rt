// Why a pick is refused.

ghost use Rattle.std.specs.Prelude.{◌≡◌};
ghost use Rattle.sheets.specs.Refusals.{refusal_number};

// What a part answers to a pick that it does not take. Of several causes the first one below is given.
#[derive(Clone, Copy, PartialEq, Eq, Debug)]
pub enum PickRefusal {
    // The pick is not above the last one.
    NotAboveLast,
    // The sheet below has no such vertex.
    NotInSheet,
    // The part has as many picks as it can hold.
    TooMany,
}

impl PickRefusal {
    // The number under which the rules list the refusal: 16 for each cause.
    pub fn number(self) -> u32
        ensures { result ≡ refusal_number self }
    {
        match self {
            PickRefusal::NotAboveLast => 16,
            PickRefusal::NotInSheet => 16,
            PickRefusal::TooMany => 16,
        }
    }
}
