// Base32 where memory is refused. The texts of caps are rows of text_rows.

use cap_text::{CapError, to_base32};

#[test]
fn refused_memory_in_base32(rt: HostRuntime) {
    let is_right = match to_base32(rt.alloc(), b"foobar") {
        Ok(text) => text.as_str() == "mzxw6ytboi",
        Err(error) => error == CapError::OutOfMemory,
    };
    assert!(rt; is_right);
}
