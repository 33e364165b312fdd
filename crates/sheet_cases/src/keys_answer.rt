// The three keys, at the ends of their ranges.

use crate::samples::code;
use graphs::Pay;
use keys::bands::{Band, Bands};
use keys::{Key, SameCode, SameKind};

fn pay(kind: u32, pence: u32) -> Pay {
    Pay { kind, pence }
}

fn band(number: u32, kind: u32, low: u32, high: u32) -> Band {
    Band {
        code: code(number),
        kind,
        low,
        high,
    }
}

#[test]
fn same_code_and_kind_fit(rt: HostRuntime) {
    assert_eq!(rt;
        [
            SameCode.fit(code(9999), code(9999)),
            SameCode.fit(code(9999), code(9998)),
            SameKind.fit(code(10), pay(10, 500)),
            SameKind.fit(code(10), pay(500, 10)),
        ],
        [true, false, true, false]
    );
}

#[test]
fn both_ends_of_a_band_fit(rt: HostRuntime) {
    let rows = [band(5, 10, 100, 200)];
    let key = Bands { rows: &rows };
    assert_eq!(rt;
        [
            key.fit(code(5), pay(10, 99)),
            key.fit(code(5), pay(10, 100)),
            key.fit(code(5), pay(10, 200)),
            key.fit(code(5), pay(10, 201)),
            key.fit(code(5), pay(11, 150)),
        ],
        [false, true, true, false, false]
    );
}

#[test]
fn first_row_of_a_code_decides(rt: HostRuntime) {
    let rows = [
        band(4, 10, 0, 9),
        band(5, 10, 100, 200),
        band(5, 10, 300, 400),
    ];
    let key = Bands { rows: &rows };
    assert_eq!(rt;
        [
            key.fit(code(5), pay(10, 150)),
            key.fit(code(5), pay(10, 350)),
            key.fit(code(4), pay(10, 9)),
            key.fit(code(6), pay(10, 150)),
        ],
        [true, false, true, false]
    );
}
