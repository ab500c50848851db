//! Values: what equals what, and what texts and blobs give back.
//!
//! Each value equals itself alone: NULL equals NULL, and the integer 1 isn't the text `1`.

use rt_sql::{Blob, Text, Value};
use std::alloc::{AllocError, Global};

fn values(alloc: Global) -> Result<[Value; 4], AllocError> {
    Ok([
        Value::Null,
        Value::Int(1),
        Value::Text(Text::new(alloc, "1")?),
        Value::Blob(Blob::new(alloc, b"1")?),
    ])
}

#[test]
fn a_value_equals_itself_alone(rt: HostRuntime) -> Result<(), AllocError> {
    let (some, others) = (values(rt.alloc())?, values(rt.alloc())?);
    for (i, own) in some.iter().enumerate() {
        for (j, other) in others.iter().enumerate() {
            assert!(rt; (own == other) == (i == j));
        }
    }
    assert!(rt; Value::Int(1) != Value::Int(-1));
    Ok(())
}

#[test]
fn a_text_and_a_blob_give_their_bytes_back(rt: HostRuntime) -> Result<(), AllocError> {
    let text = Text::new(rt.alloc(), "a'b")?.into_string();
    let bytes = Blob::new(rt.alloc(), b"\x00\xFF")?.into_vec();
    assert!(rt; (text.as_str(), bytes.as_slice()) == ("a'b", b"\x00\xFF".as_slice()));
    Ok(())
}
