// Each refusal, at the first and at the last line and field where it can be.

use super::samples::{read_codes, read_pay, refused, taken};
use std::test::Fail;

#[test]
fn a_text_that_stops(rt: HostRuntime) -> Result<(), Fail> {
    refused(&rt, read_codes(b""), 2, 1, 0)?;
    refused(&rt, read_codes(b"g\t1\n"), 2, 2, 0)?;
    refused(&rt, read_codes(b"g\t1\nn\t7\nn\t7\nt\t0\t1\t5\n"), 2, 5, 0)
}

#[test]
fn a_line_without_line_feed(rt: HostRuntime) -> Result<(), Fail> {
    refused(&rt, read_codes(b"g\t1"), 2, 1, 0)?;
    refused(&rt, read_codes(b"g\t1\ne"), 2, 2, 0)?;
    refused(&rt, read_codes(b"g\t1\ne\nx"), 2, 3, 0)?;
    refused(&rt, read_codes(b"\t"), 2, 1, 0)
}

#[test]
fn a_letter_that_is_not_allowed(rt: HostRuntime) -> Result<(), Fail> {
    refused(&rt, read_codes(b"\n"), 3, 1, 1)?;
    refused(&rt, read_codes(b"n\t7\n"), 3, 1, 1)?;
    refused(&rt, read_codes(b"gg\t1\n"), 3, 1, 1)?;
    refused(&rt, read_codes(b"G\t1\n"), 3, 1, 1)?;
    refused(&rt, read_codes(b"g\t1\ng\t1\n"), 3, 2, 1)?;
    refused(
        &rt,
        read_codes(b"g\t1\nn\t7\nn\t7\nt\t0\t1\t5\nn\t7\ne\n"),
        3,
        5,
        1,
    )?;
    refused(&rt, read_codes(b"g\t1\ne\n\n"), 3, 3, 1)?;
    refused(&rt, read_codes(b"g\t1\ne\ne\n"), 3, 3, 1)
}

#[test]
fn a_wrong_count_of_fields(rt: HostRuntime) -> Result<(), Fail> {
    refused(&rt, read_codes(b"g\n"), 4, 1, 0)?;
    refused(&rt, read_codes(b"g\t1\t\n"), 4, 1, 0)?;
    refused(&rt, read_codes(b"g\t1\nn\t7\t0\n"), 4, 2, 0)?;
    refused(&rt, read_pay(b"g\t2\nn\t7\n"), 4, 2, 0)?;
    refused(&rt, read_codes(b"g\t1\nn\t7\nt\t0\t1\n"), 4, 3, 0)?;
    refused(&rt, read_pay(b"g\t2\nt\t0\t1\t5\t0\t0\n"), 4, 2, 0)?;
    refused(&rt, read_codes(b"g\t1\ne\t\n"), 4, 2, 0)
}

#[test]
fn a_field_that_is_no_number(rt: HostRuntime) -> Result<(), Fail> {
    refused(&rt, read_codes(b"g\t07\n"), 5, 1, 2)?;
    refused(&rt, read_codes(b"g\t1\nn\t73x\n"), 5, 2, 2)?;
    refused(&rt, read_codes(b"g\t1\nn\t\n"), 5, 2, 2)?;
    refused(&rt, read_codes(b"g\t1\nn\t+7\n"), 5, 2, 2)?;
    refused(&rt, read_codes(b"g\t1\nn\t 7\n"), 5, 2, 2)?;
    refused(&rt, read_codes(b"g\t1\nn\t7\r\n"), 5, 2, 2)?;
    refused(&rt, read_codes(b"g\t1\nn\t1000000000\n"), 5, 2, 2)?;
    refused(&rt, read_codes(b"g\t1\nn\t00\n"), 5, 2, 2)?;
    refused(
        &rt,
        read_pay(b"g\t2\nn\t7\t0\nn\t7\t0\nt\t0\t1\t5\tx\n"),
        5,
        4,
        5,
    )
}

#[test]
fn a_number_out_of_range(rt: HostRuntime) -> Result<(), Fail> {
    refused(&rt, read_codes(b"g\t2\n"), 6, 1, 2)?;
    refused(&rt, read_pay(b"g\t1\n"), 6, 1, 2)?;
    refused(&rt, read_codes(b"g\t1\nn\t0\n"), 6, 2, 2)?;
    refused(&rt, read_codes(b"g\t1\nn\t10000\n"), 6, 2, 2)?;
    taken(&rt, read_codes(b"g\t1\nn\t9999\nn\t1\ne\n"), 2, 0);
    taken(
        &rt,
        read_pay(b"g\t2\nn\t9999\t999999999\nn\t1\t0\ne\n"),
        2,
        0,
    );
    refused(
        &rt,
        read_pay(b"g\t2\nn\t7\t0\nn\t7\t0\nt\t0\t1\t10000\t0\n"),
        6,
        4,
        4,
    )
}

#[test]
fn a_missing_vertex(rt: HostRuntime) -> Result<(), Fail> {
    refused(&rt, read_codes(b"g\t1\nt\t0\t1\t5\n"), 6, 2, 2)?;
    refused(&rt, read_codes(b"g\t1\nn\t7\nt\t0\t1\t5\n"), 6, 3, 3)?;
    refused(&rt, read_codes(b"g\t1\nn\t7\nn\t7\nt\t2\t1\t5\n"), 6, 4, 2)
}

#[test]
fn a_tie_to_itself_or_repeated(rt: HostRuntime) -> Result<(), Fail> {
    refused(&rt, read_codes(b"g\t1\nn\t7\nt\t0\t0\t5\n"), 7, 3, 0)?;
    refused(
        &rt,
        read_codes(b"g\t1\nn\t7\nn\t7\nt\t0\t1\t5\nt\t0\t1\t6\n"),
        7,
        5,
        0,
    )?;
    refused(
        &rt,
        read_codes(b"g\t1\nn\t7\nn\t7\nt\t0\t1\t5\nt\t1\t0\t5\nt\t0\t1\t6\n"),
        7,
        6,
        0,
    )?;
    refused(
        &rt,
        read_codes(b"g\t1\nn\t7\nn\t7\nt\t0\t1\t5\nt\t1\t0\t5\nt\t1\t0\t6\n"),
        7,
        6,
        0,
    )?;
    taken(
        &rt,
        read_codes(b"g\t1\nn\t7\nn\t7\nt\t0\t1\t5\nt\t1\t0\t5\ne\n"),
        2,
        2,
    );
    Ok(())
}

#[test]
fn a_full_list(rt: HostRuntime) -> Result<(), Fail> {
    taken(&rt, read_codes(b"g\t1\nn\t1\nn\t1\nn\t1\ne\n"), 3, 0);
    refused(
        &rt,
        read_codes(b"g\t1\nn\t1\nn\t1\nn\t1\nn\t1\ne\n"),
        8,
        5,
        0,
    )?;
    refused(
        &rt,
        read_codes(b"g\t1\nn\t1\nn\t1\nn\t1\nt\t0\t1\t5\nt\t1\t0\t5\nt\t0\t2\t5\n"),
        8,
        7,
        0,
    )
}

#[test]
fn the_first_test_decides(rt: HostRuntime) -> Result<(), Fail> {
    // 5 in an earlier field before 6 in a later one, and the other way round
    refused(&rt, read_pay(b"g\t2\nn\tx\t1000000000\n"), 5, 2, 2)?;
    refused(&rt, read_pay(b"g\t2\nn\t0\tx\n"), 6, 2, 2)?;
    // a field before the tie, and the tie before the room
    refused(&rt, read_codes(b"g\t1\nn\t7\nt\t0\t0\tx\n"), 5, 3, 4)?;
    refused(
        &rt,
        read_codes(b"g\t1\nn\t7\nn\t7\nt\t0\t1\t5\nt\t1\t0\t5\nt\t1\t1\t5\n"),
        7,
        6,
        0,
    )
}
