// Texts of just as many bytes as may be, and of one more.

use super::samples::{NO_CODE, refused, taken};
use graphs::{Code, Tie};
use std::alloc::{AllocError, Global};
use std::test::Fail;
use texts::{MOST_BYTES, read_graph};

// A good text of 1,000,000 bytes, with 249,998 vertices.
fn long_text(heap: Global) -> Result<Vec<u8>, AllocError> {
    let mut text = Vec::new(heap);
    text.extend_from_slice(b"g\t1\nn\t10\nn\t20\n")?;
    for _ in 0..249_996 {
        text.extend_from_slice(b"n\t7\n")?;
    }
    text.extend_from_slice(b"e\n")?;
    Ok(text)
}

#[test]
fn the_longest_text(rt: HostRuntime) -> Result<(), Fail> {
    let heap = rt.alloc();
    let mut text = long_text(heap)?;
    assert_eq!(rt; text.len(), MOST_BYTES);
    let mut vertices = vec![in heap; NO_CODE; 250_000]?;
    let mut ties: Vec<Tie<Code>> = Vec::new(heap);
    taken(
        &rt,
        read_graph(
            text.as_slice(),
            1,
            vertices.as_mut_slice(),
            ties.as_mut_slice(),
        ),
        249_998,
        0,
    );
    text.extend_from_slice(b"x")?;
    refused(
        &rt,
        read_graph(
            text.as_slice(),
            1,
            vertices.as_mut_slice(),
            ties.as_mut_slice(),
        ),
        1,
        0,
        0,
    )
}
