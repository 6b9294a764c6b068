//! The fields of commands.

ghost use Rattle.std.specs.Prelude.{◌≡◌, ◌∷◌, [], Err, IfOk, IsOk, decimal, map};
ghost use Rattle.file_encoding.specs.Params.{AreChosen, UploadParameters};
ghost use Rattle.world_script.specs.Script.{AreNumbers, AreParams, AreThree, AreTwo, IsHex};
ghost use Rattle.world_script.specs.Script.{IsHexOf, IsNumber, IsOne};
ghost use Rattle.world_script.specs.declared.error.LineError.TheVariants.{NoCommand};

use crate::error::LineError;
use file_encoding::Params;
use hex::FromHexError;
use proved_parts::Bytes;
use std::alloc::Global;
use tagged_hash::read_decimal;

// The number that a word is.
pub(crate) fn number(word: &[u8]) -> Result<u64, LineError>
    ensures value { IfOk result (λ n. word.now ≡ decimal n) }
    ensures none { result ≡ Err NoCommand → ¬ (IsNumber word.now) }
{
    match read_decimal(word) {
        Some(number) => Ok(number),
        None => Err(LineError::NoCommand),
    }
}

// The number that is the only word.
pub(crate) fn one_number(words: &[&[u8]]) -> Result<u64, LineError>
    ensures value { IfOk result (λ n. AreNumbers (n ∷ []) (map (λ w. w.now) words.now)) }
    ensures none { result ≡ Err NoCommand → ¬ (IsOne (map (λ w. w.now) words.now)) }
{
    match words {
        [only] => number(only),
        _ => Err(LineError::NoCommand),
    }
}

// The two numbers that are the only words.
pub(crate) fn two_numbers(words: &[&[u8]]) -> Result<(u64, u64), LineError>
    ensures value { IfOk result
        (λ n. AreNumbers (n.0 ∷ n.1 ∷ []) (map (λ w. w.now) words.now)) }
    ensures none { result ≡ Err NoCommand → ¬ (AreTwo (map (λ w. w.now) words.now)) }
{
    match words {
        [first, second] => Ok((number(first)?, number(second)?)),
        _ => Err(LineError::NoCommand),
    }
}

// The three numbers that are the only words.
pub(crate) fn three_numbers(words: &[&[u8]]) -> Result<(u64, u64, u64), LineError>
    ensures value { IfOk result
        (λ n. AreNumbers (n.0 ∷ n.1 ∷ n.2 ∷ []) (map (λ w. w.now) words.now)) }
    ensures none { result ≡ Err NoCommand → ¬ (AreThree (map (λ w. w.now) words.now)) }
{
    match words {
        [first, second, third] => Ok((number(first)?, number(second)?, number(third)?)),
        _ => Err(LineError::NoCommand),
    }
}

// The bytes, one at least, that a word spells in hex.
pub(crate) fn bytes(alloc: Global, word: &[u8]) -> Result<Bytes, LineError>
    ensures value { IfOk result (λ bytes. IsHexOf bytes word.now) }
    ensures none { result ≡ Err NoCommand → ¬ (IsHex word.now) }
{
    match hex::decode(alloc, word) {
        Ok(bytes) if bytes.is_empty() => Err(LineError::NoCommand),
        Ok(bytes) => Ok(Bytes::from_vec(bytes)),
        Err(FromHexError::OutOfMemory) => Err(LineError::OutOfMemory),
        Err(_) => Err(LineError::NoCommand),
    }
}

// The parameters of an upload that four words are.
pub(crate) fn params(words: &[&[u8]]) -> Result<Params, LineError>
    ensures value { IfOk result (λ p. AreParams p (map (λ w. w.now) words.now)) }
    ensures none { result ≡ Err NoCommand
        → (p : UploadParameters) → ¬ (AreParams p (map (λ w. w.now) words.now)) }
{
    match words {
        [_, _, _, _] => {
            let (needed, happy) = two_numbers(&words[..2])?;
            let (total, segment) = two_numbers(&words[2..])?;
            chosen(needed, happy, total, segment)
        }
        _ => Err(LineError::NoCommand),
    }
}

// These parameters, where each is in its range.
fn chosen(needed: u64, happy: u64, total: u64, segment: u64) -> Result<Params, LineError>
    ensures value { IfOk result (λ p. p ≡ record {
      needed = needed;
      happy = happy;
      total = total;
      max_segment = segment;
    }) }
    ensures in_ranges { IsOk result → AreChosen needed happy total segment }
    ensures none { result ≡ Err NoCommand → ¬ AreChosen needed happy total segment }
{
    Params::new(needed, happy, total, segment).map_err(|_| LineError::NoCommand)
}
