// Shares of zfec's matrix over the field modulo 0x11D, computed by Python.

use std::alloc::Global;
use zfec_code::{Code, CodeError, Decoder};

// Share values of the matrix that zfec makes of the field modulo 0x11D: k, n, column, share and
// value.
static SHARES: [(u16, u16, &[u8], u16, u8); 11] = [
    (2, 4, &[0x01, 0x02], 0, 0x01),
    (2, 4, &[0x01, 0x02], 1, 0x02),
    (2, 4, &[0x01, 0x02], 2, 0x07),
    (2, 4, &[0x01, 0x02], 3, 0x0d),
    (3, 4, &[0x01, 0x02, 0x03], 3, 0x15),
    (3, 4, &[0x01, 0x00, 0x00], 3, 0x0f),
    (3, 4, &[0x00, 0x01, 0x00], 3, 0x08),
    (3, 4, &[0x00, 0x00, 0x01], 3, 0x06),
    (2, 10, &[0x01, 0x02], 8, 0x9c),
    (2, 10, &[0x01, 0x02], 9, 0x26),
    (1, 256, &[0x5a], 255, 0x5a),
];

// Whether a share of a column has this value.
fn has_value(alloc: Global, k: u16, n: u16, column: &[u8], share: u16, value: u8) -> bool {
    let Ok(code) = Code::new(alloc, k, n) else {
        return false;
    };
    if column.len() != usize::from(k) || share >= n {
        return false;
    }
    let mut out = [0u8; 1];
    code.encode(column, share, &mut out);
    out[0] == value
}

#[test]
fn shares_have_the_known_values(rt: HostRuntime) {
    for &(k, n, column, share, value) in &SHARES {
        assert!(rt;
            has_value(rt.alloc(), k, n, column, share, value),
            "share {share} of {n}"
        );
    }
}

// The decoder of shares 2 and 3 of four.
fn decoder(alloc: Global) -> Option<Decoder> {
    let code = Code::new(alloc, 2, 4).ok()?;
    let numbers = Vec::from_slice(alloc, &[2u16, 3]).ok()?;
    code.decoder(alloc, numbers).ok()
}

// Whether shares of two of four decode to the blocks 01 and 02, or their refusal, which leaves
// `out` as it was; false too, where it does not.
fn decoded(alloc: Global, shares: &[(u16, &[u8])]) -> Result<bool, CodeError> {
    let code = Code::new(alloc, 2, 4)?;
    let mut out = [9u8; 2];
    match code.decode(alloc, shares, &mut out) {
        Ok(()) => Ok(out == [1, 2]),
        Err(error) if out == [9, 9] => Err(error),
        Err(_) => Ok(false),
    }
}

#[test]
fn any_shares_give_the_blocks_back(rt: HostRuntime) {
    assert!(rt; decoded(rt.alloc(), &[(2, &[0x07]), (3, &[0x0d])]) == Ok(true));
    assert!(rt; decoded(rt.alloc(), &[(3, &[0x0d]), (0, &[0x01])]) == Ok(true));
}

#[test]
fn refusals_come_in_their_order(rt: HostRuntime) {
    let alloc = rt.alloc();
    assert!(rt; decoded(alloc, &[(3, &[1]), (3, &[2])]) == Err(CodeError::RepeatedShare));
    assert!(rt; decoded(alloc, &[(4, &[1]), (3, &[2])]) == Err(CodeError::ShareOutOfRange));
    let wrong = Err(CodeError::LengthMismatch);
    assert!(rt; decoded(alloc, &[(4, &[1]), (4, &[2]), (1, &[2])]) == wrong);
    assert!(rt; decoded(alloc, &[(4, &[1]), (4, &[2, 3])]) == wrong);
    assert!(rt; Code::new(alloc, 0, 4).is_err());
    assert!(rt; Code::new(alloc, 5, 4).is_err());
    assert!(rt; Code::new(alloc, 1, 257).is_err());
}

#[test]
fn refused_memory_in_decoding(rt: HostRuntime) {
    let told = decoded(rt.alloc(), &[(2, &[0x07]), (3, &[0x0d])]);
    assert!(rt; told == Ok(true) || told == Err(CodeError::OutOfMemory));
}

#[test]
fn a_decoder_is_made_once(rt: HostRuntime) {
    assert!(rt; decoder(rt.alloc()).is_some());
}
