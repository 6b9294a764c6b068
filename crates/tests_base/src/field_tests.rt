// Products of the field modulo 0x11D, computed by Python.

use std::test::Fail;
use zfec_code::field::{inv, mul, point};
use zfec_code::lanes::{add_mul, add_mul_three};

#[test]
fn products_are_those_of_0x11d(rt: HostRuntime) -> Result<(), Fail> {
    let cases = [
        (0x80, 0x02, 0x1d),
        (0x02, 0x8e, 0x01),
        (0xff, 0x01, 0xff),
        (0x53, 0x00, 0x00),
        (0x53, 0xca, 0x8f),
    ];
    for (a, b, product) in cases {
        assert!(rt; mul(a, b) == product);
        assert!(rt; mul(b, a) == product);
    }
    assert!(rt; inv(0x02) == 0x8e);
    Ok(())
}

#[test]
fn points_are_zero_and_the_powers(rt: HostRuntime) -> Result<(), Fail> {
    for (i, x) in [
        (0, 0x00),
        (1, 0x01),
        (2, 0x02),
        (8, 0x80),
        (9, 0x1d),
        (255, 0x8e),
    ] {
        assert!(rt; point(i) == x);
    }
    Ok(())
}

#[test]
fn multiples_are_added_byte_by_byte(rt: HostRuntime) -> Result<(), Fail> {
    let mut sum = [0x01, 0x01];
    add_mul(&mut sum, &[0x80, 0x02], 0x02);
    assert!(rt; sum == [0x1c, 0x05]);
    add_mul(&mut sum, &[0xff, 0xff], 0x00);
    assert!(rt; sum == [0x1c, 0x05]);
    Ok(())
}

// Bytes that differ from position to position.
fn sample(step: u8) -> [u8; 65] {
    let mut bytes = [0u8; 65];
    for i in 0..65 {
        bytes[i] = (i as u8).wrapping_mul(step);
    }
    bytes
}

// The lengths at which vectors of 16 bytes begin, end and leave a rest; what stands behind is left
// alone.
#[test]
fn each_length_is_as_the_plain_loop_has_it(rt: HostRuntime) -> Result<(), Fail> {
    let source = sample(37);
    let before = sample(91);
    for len in [0usize, 1, 15, 16, 17, 31, 32, 33, 64, 65] {
        let len = len.min(65);
        let mut sum = sample(91);
        add_mul(&mut sum[..len], &source[..len], 0x8e);
        for i in 0..65 {
            let added = if i < len { mul(0x8e, source[i]) } else { 0 };
            assert!(rt; sum[i] == before[i] ^ added, "byte {i} of {len}");
        }
    }
    Ok(())
}

// The same of three sources at once, each with a factor of its own.
#[test]
fn each_length_of_three_is_as_the_plain_loop_has_it(rt: HostRuntime) -> Result<(), Fail> {
    let x = sample(37);
    let y = sample(11);
    let z = sample(149);
    let before = sample(91);
    for len in [0usize, 1, 15, 16, 17, 31, 32, 33, 64, 65] {
        let len = len.min(65);
        let mut sum = sample(91);
        add_mul_three(
            &mut sum[..len],
            &x[..len],
            &y[..len],
            &z[..len],
            [0x8e, 0x02, 0x53],
        );
        for i in 0..65 {
            let added = if i < len {
                mul(0x8e, x[i]) ^ mul(0x02, y[i]) ^ mul(0x53, z[i])
            } else {
                0
            };
            assert!(rt; sum[i] == before[i] ^ added, "byte {i} of {len}");
        }
    }
    Ok(())
}
