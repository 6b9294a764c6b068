//! The field of 256 elements: products, inverses and the points of the shares.

ghost use Rattle.std.specs.Prelude.{◌≡◌, ◌<◌};
ghost use Rattle.zfec_code.specs.Field.{polynomial_product, IsRemainder, product, point_of};

use crate::tables::{INVERSES, LOGARITHMS, POWERS};

/// The product of two elements.
pub fn mul(a: u8, b: u8) -> u8
    ensures value { result ≡ product a b }
    ensures remainder { IsRemainder (polynomial_product 8 a b) result }
{
    if a == 0 || b == 0 {
        return 0;
    }
    let exponent = usize::from(LOGARITHMS[usize::from(a)])
        + usize::from(LOGARITHMS[usize::from(b)]);
    POWERS[exponent]
}

/// The inverse of an element other than 0.
pub fn inv(a: u8) -> u8
    requires { 0 < a }
    ensures { product a result ≡ 1 }
{
    INVERSES[usize::from(a)]
}

/// The evaluation point of share `i`: 0 for share 0, and x^(i - 1) for the others.
pub fn point(i: u8) -> u8
    ensures { result ≡ point_of i }
{
    if i == 0 {
        0
    } else {
        POWERS[usize::from(i - 1)]
    }
}
