// Books and sheets that look random, over codes and pay labels, all keys, parts and pieces.

use crate::compared::check_listing;
use crate::drawn::DrawnBook;
use crate::random::Random;
use crate::samples::{Sample, draw_sample};
use finding::piece::PieceSheet;
use graphs::{Code, Pay};
use keys::bands::{Band, Bands};
use keys::{SameCode, SameKind};
use sheets::part::Part;
use std::test::Fail;

// A band for each of the two codes that patterns have.
fn bands() -> [Band; 2] {
    [
        Band {
            code: Code { number: 1 },
            kind: 2,
            low: 100,
            high: 899,
        },
        Band {
            code: Code { number: 2 },
            kind: 1,
            low: 0,
            high: 900,
        },
    ]
}

#[test]
fn codes_by_the_same_code_key(rt: HostRuntime) -> Result<(), Fail> {
    let heap = rt.alloc();
    let mut random = Random::new(1);
    for _ in 0..40 {
        let drawn = DrawnBook::draw(heap, &mut random)?;
        let sample: Sample<Code> = draw_sample(heap, &mut random, 5, 3)?;
        check_listing(&rt, heap, &drawn, &sample.sheet(), &SameCode)?;
    }
    Ok(())
}

#[test]
fn pay_labels_by_kind_and_band(rt: HostRuntime) -> Result<(), Fail> {
    let heap = rt.alloc();
    let mut random = Random::new(2);
    let rows = bands();
    for _ in 0..20 {
        let drawn = DrawnBook::draw(heap, &mut random)?;
        let sample: Sample<Pay> = draw_sample(heap, &mut random, 5, 3)?;
        let sheet = sample.sheet();
        check_listing(&rt, heap, &drawn, &sheet, &SameKind)?;
        let key = Bands { rows: &rows };
        check_listing(&rt, heap, &drawn, &sheet, &key)?;
    }
    Ok(())
}

#[test]
fn parts_of_a_sheet(rt: HostRuntime) -> Result<(), Fail> {
    let heap = rt.alloc();
    let mut random = Random::new(3);
    for _ in 0..20 {
        let drawn = DrawnBook::draw(heap, &mut random)?;
        let sample: Sample<Pay> = draw_sample(heap, &mut random, 7, 3)?;
        let mut part = Part::new(sample.sheet());
        for vertex in 0..7 {
            if random.below(3) != 0 {
                part.pick(vertex)?;
            }
        }
        check_listing(&rt, heap, &drawn, &part, &SameKind)?;
    }
    Ok(())
}

#[test]
fn pieces_as_sheets(rt: HostRuntime) -> Result<(), Fail> {
    let heap = rt.alloc();
    let mut random = Random::new(4);
    for _ in 0..10 {
        let drawn = DrawnBook::draw(heap, &mut random)?;
        let other = DrawnBook::draw(heap, &mut random)?;
        for number in 0..12 {
            let sheet = PieceSheet {
                book: &other.book,
                number,
            };
            check_listing(&rt, heap, &drawn, &sheet, &SameCode)?;
        }
    }
    Ok(())
}
