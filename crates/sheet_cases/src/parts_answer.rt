// Parts, parts of parts, and the picks that are refused.

use crate::samples::{code, tie};
use graphs::{Code, Tie};
use sheets::part::Part;
use sheets::refusal::PickRefusal;
use sheets::sheet::Sheet;
use sheets::table::TableSheet;
use std::process::Abort;

// Picks each vertex, and fails where one is refused.
fn pick_each<S: Sheet>(rt: &impl Abort, part: &mut Part<S>, vertices: &[usize]) {
    for vertex in vertices {
        assert_eq!(rt; part.pick(*vertex), Ok(()));
    }
}

#[test]
fn part_numbers_its_picks(rt: HostRuntime) {
    let labels = [code(10), code(11), code(12), code(13)];
    let ties = [tie(1, 3, 7), tie(3, 0, 8)];
    let mut part = Part::new(TableSheet {
        labels: &labels,
        ties: &ties,
    });
    pick_each(&rt, &mut part, &[1, 3]);
    assert_eq!(rt; part.size(), 2);
    assert_eq!(rt;
        [part.label(1), part.label(2), part.tie(0, 1), part.tie(1, 0)],
        [Some(code(13)), None, Some(code(7)), None]
    );
}

#[test]
fn part_of_a_part_numbers_the_picks_of_picks(rt: HostRuntime) {
    let labels = [code(10), code(11), code(12), code(13)];
    let ties = [tie(3, 1, 7)];
    let mut part = Part::new(TableSheet {
        labels: &labels,
        ties: &ties,
    });
    pick_each(&rt, &mut part, &[1, 2, 3]);
    let mut inner = Part::new(part);
    pick_each(&rt, &mut inner, &[0, 2]);
    assert_eq!(rt; inner.pick(3), Err(PickRefusal::NotInSheet));
    assert_eq!(rt;
        [inner.label(0), inner.label(1), inner.tie(1, 0)],
        [Some(code(11)), Some(code(13)), Some(code(7))]
    );
    assert_eq!(rt; [inner.size(), inner.into_sheet().size()], [2, 3]);
}

#[test]
fn picks_are_refused_and_leave_the_part(rt: HostRuntime) {
    let labels = [code(10), code(11), code(12)];
    let ties: [Tie<Code>; 0] = [];
    let mut part = Part::new(TableSheet {
        labels: &labels,
        ties: &ties,
    });
    assert_eq!(rt; part.pick(3), Err(PickRefusal::NotInSheet));
    pick_each(&rt, &mut part, &[1]);
    assert_eq!(rt; part.pick(1), Err(PickRefusal::NotAboveLast));
    assert_eq!(rt; part.pick(0), Err(PickRefusal::NotAboveLast));
    assert_eq!(rt; [part.label(0), part.label(1)], [Some(code(11)), None]);
    assert_eq!(rt; PickRefusal::NotInSheet.number(), 16);
}

#[test]
fn pick_257_is_refused(rt: HostRuntime) {
    let labels = [code(10); 300];
    let ties: [Tie<Code>; 0] = [];
    let mut part = Part::new(TableSheet {
        labels: &labels,
        ties: &ties,
    });
    for vertex in 0..256 {
        assert_eq!(rt; part.pick(vertex), Ok(()));
    }
    assert_eq!(rt; part.pick(256), Err(PickRefusal::TooMany));
    assert_eq!(rt; part.size(), 256);
}
