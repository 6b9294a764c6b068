//! What stands under a key.

ghost use Rattle.std.specs.Prelude.{◌≡◌, ◌≢◌, ◌↔◌, ◌++◌, ℕ, List, codes, decimal};
ghost use Rattle.std.specs.Prelude.{IsTrue, IfOk, IfSome, IfNone};
ghost use Rattle.ueb.specs.Shape.{codec_params};

use std::alloc::{AllocError, Global};
use tagged_hash::DecimalText;

/// What stands under a key.
#[derive(Clone, Copy)]
pub(crate) enum Value<'a> {
    /// These bytes.
    Bytes(&'a [u8]),
    /// A number in decimal.
    Number(u64),
    /// The parameters of a code: the size of what it cuts up, shares needed, shares in all.
    Params(u64, u64, u64),
}

impl Value<'_> {
    ghost use Rattle.ueb.specs.Value.{value_bytes};

    /// Whether a text is this value's.
    pub(crate) fn is(&self, text: &[u8]) -> bool
        ensures { IsTrue result ↔ (text.now ≡ value_bytes self.now) }
    {
        match *self {
            Value::Bytes(bytes) => text == bytes,
            Value::Number(number) => is_number(text, number),
            Value::Params(size, needed, total) => is_codec_params(text, size, needed, total),
        }
    }

    /// The value's text.
    pub(crate) fn text(&self, alloc: Global) -> Result<Vec<u8>, AllocError>
        ensures { IfOk result (λ text. text.items ≡ value_bytes self.now) }
    {
        match *self {
            Value::Bytes(bytes) => Vec::from_slice(alloc, bytes),
            Value::Number(number) => Vec::from_slice(alloc, DecimalText::new(number).as_bytes()),
            Value::Params(size, needed, total) => {
                let mut text = Vec::from_slice(alloc, DecimalText::new(size).as_bytes())?;
                text.extend_from_slice(b"-")?;
                text.extend_from_slice(DecimalText::new(needed).as_bytes())?;
                text.extend_from_slice(b"-")?;
                text.extend_from_slice(DecimalText::new(total).as_bytes())?;
                Ok(text)
            }
        }
    }
}

fn is_number(text: &[u8], number: u64) -> bool
    ensures { IsTrue result ↔ (text.now ≡ decimal number) }
{
    text == DecimalText::new(number).as_bytes()
}

// What stands behind a prefix.
fn strip<'a>(text: &'a [u8], prefix: &[u8]) -> Option<&'a [u8]>
    ensures found { IfSome result (λ rest. text.now ≡ prefix.now ++ rest.now) }
    ensures none { IfNone result ((rest : List ℕ) → text.now ≢ prefix.now ++ rest) }
{
    text.strip_prefix(prefix)
}

// What stands behind a number and a dash.
fn strip_number(text: &[u8], number: u64) -> Option<&[u8]>
    ensures found { IfSome result (λ rest. text.now ≡ decimal number ++ (codes "-" ++ rest.now)) }
    ensures none { IfNone result ((rest : List ℕ)
        → text.now ≢ decimal number ++ (codes "-" ++ rest)) }
{
    let rest = strip(text, DecimalText::new(number).as_bytes())?;
    strip(rest, b"-")
}

fn is_codec_params(text: &[u8], size: u64, needed: u64, total: u64) -> bool
    ensures { IsTrue result ↔ (text.now ≡ codec_params size needed total) }
{
    let Some(rest) = strip_number(text, size) else {
        return false;
    };
    let Some(rest) = strip_number(rest, needed) else {
        return false;
    };
    is_number(rest, total)
}
