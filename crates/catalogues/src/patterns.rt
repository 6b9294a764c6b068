//! Which names patterns choose.

ghost use Rattle.std.specs.Prelude.{◌≡◌, ◌==◌, ◌<◌, ◌+◌, ◌∷◌, ◌&&◌, [], ℕ, List, IfOk, length};
ghost use Rattle.std.specs.Prelude.{map, not};
ghost use Rattle.std.specs.List.{list_any};
ghost use Rattle.catalogues.specs.Patterns.{behind_front, chooses, is_further, quoted, taken};
ghost use Rattle.catalogues.specs.Rows.{Tells, TellsAll, answer};

use crate::below::without_front;
use std::alloc::{AllocError, Global};

/// Whether a name below a folder is chosen by one of these patterns, or there is none. In a pattern
/// `*` stands for any characters but slashes, `?` for one, and a `\` takes what follows it as it
/// is. One that takes a folder takes what is below it. Slashes and `./` at the front of both do not
/// count. It takes a step for each byte of a pattern and each of the name.
pub fn chooses(alloc: Global, patterns: &[&str], name: &[u8]) -> Result<bool, AllocError>
    ensures { IfOk result
        (λ chosen. chosen ≡ chooses (map (λ p. p.now) patterns.now) name.now) }
{
    if patterns.is_empty() {
        return Ok(true);
    }
    choose(alloc, patterns, without_front(name))
}

// Whether one of these patterns takes a name without a front.
fn choose(alloc: Global, patterns: &[&str], name: &[u8]) -> Result<bool, AllocError>
    ensures { IfOk result (λ chosen. chosen
        ≡ list_any (λ p. taken name.now (behind_front p.now)) patterns.now) }
{
    for pattern in patterns {
        if takes(alloc, without_front(pattern.as_bytes()), name)? {
            return Ok(true);
        }
    }
    Ok(false)
}

// Whether a pattern takes a name: row by row, from the name's end to its beginning.
fn takes(alloc: Global, pattern: &[u8], name: &[u8]) -> Result<bool, AllocError>
    ensures { IfOk result (λ yes. yes ≡ taken name.now pattern.now) }
{
    let mut row = last_row(alloc, pattern)?;
    let mut left = name;
    while let Some((byte, before)) = left.split_last() {
        row = row_before(alloc, row.as_slice(), pattern, *byte)?;
        left = before;
    }
    let answers = row.as_slice();
    Ok(answers[pattern.len()])
}

// Whether the ends of a pattern take an empty name.
fn last_row(alloc: Global, pattern: &[u8]) -> Result<Vec<bool>, AllocError>
    ensures length { IfOk result (λ row. length row.items ≡ length pattern.now + 1) }
    ensures told { IfOk result (λ row. TellsAll row.items [] pattern.now) }
{
    let mut row = vec![in alloc; true]?;
    let mut stars = true;
    let mut left = pattern;
    while let Some((x, before)) = left.split_last() {
        stars = are_stars(*x, stars);
        row.push(stars)?;
        left = before;
    }
    Ok(row)
}

// Whether an end of a pattern that begins so has stars alone, by the shorter end.
fn are_stars(first: u8, shorter: bool) -> bool
    ensures { result ≡ (first == 42 && shorter) }
{
    first == b'*' && shorter
}

// The same of a name that begins with one byte more.
fn row_before(
    alloc: Global,
    old: &[bool],
    pattern: &[u8],
    byte: u8,
) -> Result<Vec<bool>, AllocError>
    requires { length old.now ≡ length pattern.now + 1 }
    ensures length { IfOk result (λ row. length row.items ≡ length pattern.now + 1) }
    ensures told { IfOk result (λ row. (name : List ℕ) → TellsAll old.now name pattern.now
        → TellsAll row.items (byte ∷ name) pattern.now) }
{
    let mut row = vec![in alloc; ends_at(old, byte)]?;
    let mut left = pattern;
    while let Some((x, before)) = left.split_last() {
        let end = &pattern[left.len()..];
        row.push(is_taken(row.as_slice(), old, *x, end, byte))?;
        left = before;
    }
    Ok(row)
}

// Whether a pattern that has ended takes a name that begins with this byte.
fn ends_at(old: &[bool], byte: u8) -> bool
    requires { 0 < length old.now }
    ensures { (name : List ℕ) → Tells old.now name [] → result ≡ taken (byte ∷ name) [] }
{
    if is_further(byte) {
        old[0]
    } else {
        byte == b'/'
    }
}

// Whether the end of a pattern that begins so takes a name that begins with this byte. The rows
// tell it of shorter ends, and of the name behind the byte.
fn is_taken(row: &[bool], old: &[bool], first: u8, end: &[u8], byte: u8) -> bool
    requires row { length row.now ≡ length end.now + 1 }
    requires old { length end.now + 1 < length old.now }
    ensures { (name : List ℕ) → TellsAll row.now (byte ∷ name) end.now
        → TellsAll old.now name (first ∷ end.now)
        → result ≡ taken (byte ∷ name) (first ∷ end.now) }
{
    let behind = is_quoted(old, end, byte);
    let count = end.len();
    answer(byte, first, row[count], old[count], old[count + 1], behind)
}

// The same, by what the rows tell.
fn answer(byte: u8, first: u8, shorter: bool, after: bool, here: bool, behind: bool) -> bool
    ensures { result ≡ answer byte first shorter after here behind }
{
    if goes_on(byte, first) {
        return here;
    }
    match first {
        b'*' => shorter || (byte != b'/' && here),
        b'?' => byte != b'/' && after,
        b'\\' => behind,
        _ => byte == first && after,
    }
}

// Whether a byte goes on a character, and is not that of the pattern.
fn goes_on(byte: u8, first: u8) -> bool
    ensures { result ≡ (is_further byte && not (is_further first)) }
{
    is_further(byte) && !is_further(first)
}

// The same behind a `\`.
fn is_quoted(old: &[bool], end: &[u8], byte: u8) -> bool
    requires { length end.now < length old.now }
    ensures { (name : List ℕ) → TellsAll old.now name end.now
        → result ≡ quoted (taken name) byte end.now }
{
    match end.split_first() {
        None => byte == b'\\' && old[0],
        Some((x, shorter)) => byte == *x && old[shorter.len()],
    }
}

// Whether a byte goes on a character.
fn is_further(byte: u8) -> bool
    ensures { result ≡ is_further byte }
{
    byte >= 128 && byte < 192
}
