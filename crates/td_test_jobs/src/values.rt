//! That a value is made for a writer, where there is memory enough. Which value it is its contract says.

use std::test::Fail;
use td_formats::ethernet_value;
use td_write_values::value::{Value, ValueKind};

/// The values of a list. Of another value there are none.
fn items(value: &Value) -> &[Value] {
    match &value.kind {
        ValueKind::List(values) => values.as_slice(),
        _ => &[],
    }
}

/// The values of the list that comes last among others.
fn last_items(values: &[Value]) -> &[Value] {
    match values.last() {
        Some(last) => items(last),
        None => &[],
    }
}

/// How many parts the payload of a frame has: it is the last of the case's body, which is the last of the casetype, the frame's last.
fn payload_parts(frame: &Value) -> usize {
    last_items(last_items(last_items(items(frame)))).len()
}

/// A frame's type or length, its payload, and the payload's parts: behind a length there is padding, too.
const ROWS: &[(u16, &[u8], usize)] = &[(2048, b"\xaa\xbb", 1), (1500, b"\xaa", 2), (1501, b"", 1)];

#[test]
fn each_frame_has_its_value(rt: HostRuntime) -> Result<(), Fail> {
    for (kind, payload, wanted) in ROWS {
        let frame = ethernet_value(
            rt.alloc(),
            [1, 2, 3, 4, 5, 6],
            [6, 5, 4, 3, 2, 1],
            *kind,
            payload,
        )?;
        assert_eq!(rt; payload_parts(&frame), *wanted);
    }
    println!(rt; "{} rows", ROWS.len())?;
    Ok(())
}
