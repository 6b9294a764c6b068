//! One line of a script.

ghost use Rattle.std.specs.Prelude.{◌≡◌, ◌∷◌, Err, IfOk, codes, map};
ghost use Rattle.world_script.specs.Refused.{SpellNoCommand};
ghost use Rattle.world_script.specs.Script.{HasFields, IsDownload, IsForgery, IsUpload, Spells};
ghost use Rattle.world_script.specs.Script.{name_of, words_of};
ghost use Rattle.world_script.specs.declared.error.LineError.TheVariants.{NoCommand};

use crate::command::Command;
use crate::error::LineError;
use crate::fields::{bytes, number, one_number, params, three_numbers, two_numbers};
use crate::verb::{Verb, verb_named};
use std::alloc::{AllocError, Global};
use ueb::MIN_FILE_SIZE;

// The words of a line.
pub(crate) fn words_of(alloc: Global, line: &[u8]) -> Result<Vec<&[u8]>, AllocError>
    ensures { IfOk result (λ words. map (λ w. w.now) words.items ≡ words_of line.now) }
{
    line.split(|byte| *byte == b' ').collect(alloc)
}

// The command that a line spells.
pub(crate) fn read_line(alloc: Global, line: &[u8]) -> Result<Command, LineError>
    ensures value { IfOk result (λ command. Spells command (words_of line.now)) }
    ensures none { result ≡ Err NoCommand → SpellNoCommand (words_of line.now) }
{
    let words = words_of(alloc, line)?;
    read_words(alloc, words.as_slice())
}

// The command that these words spell.
fn read_words(alloc: Global, words: &[&[u8]]) -> Result<Command, LineError>
    ensures value { IfOk result (λ command. Spells command (map (λ w. w.now) words.now)) }
    ensures none { result ≡ Err NoCommand → SpellNoCommand (map (λ w. w.now) words.now) }
{
    let [name, fields @ ..] = words else {
        return Err(LineError::NoCommand);
    };
    match verb_named(name) {
        Some(verb) => read_fields(alloc, verb, fields),
        None => Err(LineError::NoCommand),
    }
}

// The command that a verb and the words after it spell.
fn read_fields(alloc: Global, verb: Verb, fields: &[&[u8]]) -> Result<Command, LineError>
    ensures value { IfOk result
        (λ command. Spells command (name_of verb ∷ map (λ w. w.now) fields.now)) }
    ensures none { result ≡ Err NoCommand → ¬ (HasFields verb (map (λ w. w.now) fields.now)) }
{
    match verb {
        Verb::Upload => read_upload(alloc, fields),
        Verb::Download => read_download(fields),
        Verb::Check => two_numbers(fields).map(|n| Command::Check(n.0, n.1)),
        Verb::Repair => three_numbers(fields).map(|n| Command::Repair(n.0, n.1, n.2)),
        Verb::Deliver => one_number(fields).map(Command::Deliver),
        Verb::Drain if fields.is_empty() => Ok(Command::Drain),
        Verb::Drain => Err(LineError::NoCommand),
        Verb::Random => two_numbers(fields).map(|n| Command::Random(n.0, n.1)),
        Verb::Pass => one_number(fields).map(Command::Pass),
        Verb::Restart => one_number(fields).map(Command::Restart),
        Verb::Fail => one_number(fields).map(Command::Fail),
        Verb::Refuse => one_number(fields).map(Command::Refuse),
        Verb::Turn => one_number(fields).map(Command::Turn),
        Verb::Forge => read_forgery(alloc, fields),
    }
}

// The upload that these words after its name spell.
fn read_upload(alloc: Global, fields: &[&[u8]]) -> Result<Command, LineError>
    ensures value { IfOk result
        (λ command. Spells command (codes "upload" ∷ map (λ w. w.now) fields.now)) }
    ensures none { result ≡ Err NoCommand → ¬ (IsUpload (map (λ w. w.now) fields.now)) }
{
    let [node, file, rest @ ..] = fields else {
        return Err(LineError::NoCommand);
    };
    let node = number(node)?;
    let params = params(rest)?;
    let file = bytes(alloc, file)?;
    if (file.as_slice().len() as u64) < MIN_FILE_SIZE {
        return Err(LineError::NoCommand);
    }
    Ok(Command::Upload(node, file, params))
}

// The download that these words after its name spell.
fn read_download(fields: &[&[u8]]) -> Result<Command, LineError>
    ensures value { IfOk result
        (λ command. Spells command (codes "download" ∷ map (λ w. w.now) fields.now)) }
    ensures none { result ≡ Err NoCommand → ¬ (IsDownload (map (λ w. w.now) fields.now)) }
{
    match fields {
        [_, _] => {
            let (node, upload) = two_numbers(fields)?;
            Ok(Command::Download(node, upload))
        }
        [_, _, _, _] => {
            let (node, upload) = two_numbers(&fields[..2])?;
            let (from, to) = two_numbers(&fields[2..])?;
            Ok(Command::DownloadRange(node, upload, from, to))
        }
        _ => Err(LineError::NoCommand),
    }
}

// The forgery that these words after its name spell.
fn read_forgery(alloc: Global, fields: &[&[u8]]) -> Result<Command, LineError>
    ensures value { IfOk result
        (λ command. Spells command (codes "forge" ∷ map (λ w. w.now) fields.now)) }
    ensures none { result ≡ Err NoCommand → ¬ (IsForgery (map (λ w. w.now) fields.now)) }
{
    match fields {
        [from, to, body] => {
            let (from, to) = (number(from)?, number(to)?);
            Ok(Command::Forge(from, to, bytes(alloc, body)?))
        }
        _ => Err(LineError::NoCommand),
    }
}
