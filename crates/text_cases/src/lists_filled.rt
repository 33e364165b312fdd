// What the lists hold after a text is taken or refused.

use super::samples::{refused, taken, tie};
use graphs::{Code, Pay, Tie};
use std::test::Fail;
use texts::read_graph;

const UNTOUCHED: Code = Code { number: 77 };

#[test]
fn a_late_fault_leaves_early_entries(rt: HostRuntime) -> Result<(), Fail> {
    let mut vertices = [UNTOUCHED; 3];
    let mut ties = [tie(9, 8, UNTOUCHED); 2];
    let text = b"g\t1\nn\t10\nn\t20\nt\t1\t0\t30\nt\t0\t1\t0\n";
    refused(&rt, read_graph(text, 1, &mut vertices, &mut ties), 6, 5, 4)?;
    assert_eq!(rt;
        vertices,
        [Code { number: 10 }, Code { number: 20 }, UNTOUCHED]
    );
    assert_eq!(rt;
        ties,
        [tie(1, 0, Code { number: 30 }), tie(9, 8, UNTOUCHED)]
    );
    Ok(())
}

#[test]
fn a_taken_text_leaves_the_rest(rt: HostRuntime) {
    let label = Pay { kind: 9, pence: 9 };
    let mut vertices = [label; 3];
    let mut ties = [tie(7, 7, label); 2];
    let text = b"g\t2\nn\t10\t5\nn\t20\t0\nt\t1\t0\t30\t118000\ne\n";
    taken(&rt, read_graph(text, 1, &mut vertices, &mut ties), 2, 1);
    assert_eq!(rt; vertices[0], Pay { kind: 10, pence: 5 });
    assert_eq!(rt; vertices[1], Pay { kind: 20, pence: 0 });
    assert_eq!(rt; vertices[2], label);
    assert_eq!(rt; ties[0].from, 1);
    assert_eq!(rt; ties[0].to, 0);
    assert_eq!(rt;
        ties[0].label,
        Pay {
            kind: 30,
            pence: 118_000,
        }
    );
    assert_eq!(rt; ties[1].from, 7);
}

#[test]
fn empty_lists(rt: HostRuntime) -> Result<(), Fail> {
    let mut vertices: [Code; 0] = [];
    let mut ties: [Tie<Code>; 0] = [];
    taken(
        &rt,
        read_graph(b"g\t1\ne\n", 1, &mut vertices, &mut ties),
        0,
        0,
    );
    refused(
        &rt,
        read_graph(b"g\t1\nn\t1\ne\n", 1, &mut vertices, &mut ties),
        8,
        2,
        0,
    )
}
