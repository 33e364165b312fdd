// The cutting of a text, one piece after another.

ghost use Rattle.std.specs.Prelude.{◌≡◌, ◌+◌, ◌<◌, ◌∷◌, length, IfSome};
ghost use Rattle.std.specs.Iterator.{item_count};
ghost use Rattle.fields.specs.Split.{split, pieces_in, left, given, ended, Handed};

use super::{Piece, Pieces};

// The first piece of a text, and what stands after its separator; none where it has no separator.
fn cut(text: &[u8], separator: u8) -> (&[u8], Option<&[u8]>)
    ensures cuts { split separator text.now ≡ result.0.now ∷ pieces_in separator result.1 }
    ensures shorter { IfSome result.1 (λ rest. length rest.now < length text.now) }
{
    // `position` takes a quarter longer for a text of many pieces.
    for (end, byte) in text.iter().enumerate() {
        if *byte == separator {
            return (&text[..end], Some(&text[end + 1..]));
        }
    }
    (text, None)
}

impl<'a> Pieces<'a> {
    // The pieces of a text between bytes `separator`, with none handed out yet.
    pub fn new(text: &'a [u8], separator: u8) -> Pieces<'a>
        ensures rest { left result ≡ split separator text.now }
        ensures none { given result ≡ 0 }
    {
        Pieces {
            rest: Some(text),
            separator,
            count: 0,
        }
    }

    // The place of the next piece, also where there is none: 1 at first.
    pub fn place(&self) -> usize
        ensures { result ≡ given self.now + 1 }
    {
        self.count + 1
    }

    // Whether every piece has been handed out.
    pub fn is_done(&self) -> bool
        ensures { result ≡ ended (left self.now) }
    {
        self.rest.is_none()
    }

    // How many pieces are yet to be handed out.
    pub fn remaining(&self) -> usize
        ensures { result ≡ length (left self.now) }
    {
        let rest = *self;
        rest.count()
    }
}

impl<'a> Iterator for Pieces<'a> {
    type Item = Piece<'a>;

    ghost next_gives = { Handed };

    ghost remaining = { item_count left };

    // The next piece, or none after the last.
    fn next(&mut self) -> Option<Piece<'a>> {
        let (bytes, rest) = cut(self.rest?, self.separator);
        self.rest = rest;
        self.count += 1;
        Some(Piece {
            place: self.count,
            bytes,
        })
    }
}
