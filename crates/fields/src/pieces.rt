// A text cut into pieces at each separator: lines at line feeds, fields at tabs.

ghost use Rattle.std.specs.Prelude.{◌+◌, ◌<◌, length};
ghost use Rattle.std.specs.Option.{ForSome};
ghost use Rattle.std.below.core.specs.declared.int.usize.TheConstants.{MAX};

mod cutting;

// One piece of a text, borrowed from it, with its place: 1 for the first.
#[derive(Clone, Copy, PartialEq, Eq, Debug)]
pub struct Piece<'a> {
    pub place: usize,
    pub bytes: &'a [u8],
}

// Hands out the pieces of a text one after another. A text has one piece more than separators, so the last may be empty.
// The library's `split` would make the type generic over a closure, for the separator.
// The rest is what stands after the last separator so far, and none once the last piece is handed out.
#[derive(Clone, Copy)]
pub struct Pieces<'a> {
    rest: Option<&'a [u8]>,
    separator: u8,
    count: usize,
    ghost few: { count < MAX },
    ghost few_left: { ForSome rest (λ bytes. count + length bytes.now + 1 < MAX) },
}
