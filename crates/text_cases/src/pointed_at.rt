// What faults point at, and the lines that refusals are printed as.

use super::samples::read_pay;
use faults::{FaultyLine, FieldFault, FieldTrouble, LineFault, Refusal, TextFault};
use fields::TooShort;
use std::test::Fail;
use texts::{point, write_refusal};

fn fault_at(text: usize, line: usize, field: usize) -> TextFault {
    TextFault::InLine(FaultyLine {
        text,
        line,
        fault: LineFault::InField(FieldFault {
            field,
            trouble: FieldTrouble::NoNumber,
        }),
    })
}

#[test]
fn fields_of_either_text(rt: HostRuntime) {
    let first = b"g\t1\nn\tone\n";
    let second = b"g\t2\nn\ttwo\t0\nlast";
    assert_eq!(rt; point(first, second, fault_at(1, 2, 2)), b"one".as_slice());
    assert_eq!(rt; point(first, second, fault_at(2, 2, 2)), b"two".as_slice());
    assert_eq!(rt; point(first, second, fault_at(3, 2, 2)), b"one".as_slice());
    assert_eq!(rt; point(first, second, fault_at(0, 2, 1)), b"n".as_slice());
    assert_eq!(rt; point(first, second, fault_at(2, 3, 0)), b"last".as_slice());
    assert_eq!(rt; point(first, second, fault_at(1, 1, 0)), b"g\t1".as_slice());
}

#[test]
fn what_is_missing(rt: HostRuntime) {
    let text = b"g\t1\nn\t7\n";
    assert_eq!(rt; point(text, text, fault_at(1, 9, 1)), b"".as_slice());
    assert_eq!(rt; point(text, text, fault_at(1, 0, 1)), b"".as_slice());
    assert_eq!(rt; point(text, text, fault_at(1, 2, 3)), b"".as_slice());
    assert_eq!(rt; point(text, text, fault_at(1, 3, 0)), b"".as_slice());
    assert_eq!(rt; point(text, text, TextFault::TooLong(1)), b"".as_slice());
}

#[test]
fn a_fault_of_the_reader(rt: HostRuntime) -> Result<(), Fail> {
    let text = b"g\t2\nn\t10\t0\nn\t20\t73x\ne\n";
    match read_pay(text) {
        Ok(_) => Err(Fail::new("the text was taken")),
        Err(fault) => {
            assert_eq!(rt; point(b"", text, fault), b"73x".as_slice());
            Ok(())
        },
    }
}

#[test]
fn refusal_lines(rt: HostRuntime) {
    let refusal = Refusal {
        number: 5,
        text: 2,
        line: 1_000_001,
        field: 3,
    };
    let mut buffer = [b'.'; 20];
    assert_eq!(rt; write_refusal(refusal, &mut buffer), Ok(16));
    assert_eq!(rt; &buffer[0..20], b"r\t5\t2\t1000001\t3\n....".as_slice());
    let mut short = [b'.'; 15];
    assert_eq!(rt; write_refusal(refusal, &mut short), Err(TooShort));
    assert_eq!(rt; &short[0..15], b"...............".as_slice());
    assert_eq!(rt; TooShort.number(), 15);
}
