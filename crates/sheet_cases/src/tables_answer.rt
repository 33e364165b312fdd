// The table sheet on a small list of ties.

use crate::samples::{code, tie};
use graphs::{Code, Tie};
use sheets::sheet::Sheet;
use sheets::table::TableSheet;

#[test]
fn first_row_of_a_pair_decides(rt: HostRuntime) {
    let labels = [code(10), code(20), code(30)];
    let ties = [tie(0, 1, 7), tie(1, 0, 9), tie(0, 1, 8)];
    let sheet = TableSheet {
        labels: &labels,
        ties: &ties,
    };
    assert_eq!(rt; sheet.size(), 3);
    assert_eq!(rt;
        [sheet.tie(0, 1), sheet.tie(1, 0), sheet.tie(0, 2)],
        [Some(code(7)), Some(code(9)), None]
    );
}

#[test]
fn rows_to_itself_or_to_a_missing_vertex_count_for_nothing(rt: HostRuntime) {
    let labels = [code(10), code(20)];
    let ties = [tie(1, 1, 7), tie(0, 2, 8), tie(2, 0, 8), tie(0, 1, 9)];
    let sheet = TableSheet {
        labels: &labels,
        ties: &ties,
    };
    assert_eq!(rt;
        [
            sheet.tie(1, 1),
            sheet.tie(0, 2),
            sheet.tie(2, 0),
            sheet.tie(0, 1),
        ],
        [None, None, None, Some(code(9))]
    );
}

#[test]
fn only_vertices_have_labels(rt: HostRuntime) {
    let labels = [code(10), code(20)];
    let ties: [Tie<Code>; 0] = [];
    let sheet = TableSheet {
        labels: &labels,
        ties: &ties,
    };
    assert_eq!(rt; [sheet.label(1), sheet.label(2)], [Some(code(20)), None]);
}
