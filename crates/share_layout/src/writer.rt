//! Writing a share.

ghost use Rattle.std.specs.Prelude.{◌≡◌, ◌<◌, ◌≤◌, ◌+◌, ◌^◌, ◌++◌, false, true, Err, IsTrue};
ghost use Rattle.std.specs.Prelude.{IsOkUnless, OnOk, OnErr, length, take};
ghost use Rattle.std.specs.Io.KnownBytes.{Appends};
ghost use Rattle.ueb.specs.Limits.{max_length};
ghost use Rattle.share_layout.specs.Layout.{layout_of, offsets_of, spelled};
ghost use Rattle.share_layout.specs.Laws.{SectionsMakeShare};
ghost use Rattle.share_layout.specs.Writing.{AppendsBeginning, beginning, ending, next_offset};

use crate::error::LayoutError;
use crate::geometry::Geometry;
use crate::layout::spell;
use crate::offsets::Offsets;
use std::io::{ErrorKind, Write};
use std::marker::Model;

/// Writes a share: first its header and five sections, one after another and cut up at will, and
/// last the extension block.
#[derive(Drop)]
pub struct ShareWriter<W: Write> {
    writer: W,
    geometry: Geometry,
    number: u16,
    // How many bytes of the share are written.
    offset: u64,
    failed: bool,
}

impl<W: Write> Model for ShareWriter<W> {
    ghost use Rattle.share_layout.specs.Writing.{Writing};

    ghost Value = { Writing };

    ghost view = { λ s. record {
      geometry = s.geometry;
      number = s.number;
      offset = s.offset;
      failed = s.failed;
      contents = W.contents s.writer;
    } };
}

impl<W: Write> ShareWriter<W> {
    /// A writer of share `number` of a file with this geometry. Nothing is written yet.
    pub fn new(writer: W, geometry: &Geometry, number: u16) -> ShareWriter<W>
        ensures { result ≡ record {
          geometry = geometry.now;
          number = number;
          offset = 0;
          failed = false;
          contents = W.contents writer;
        } }
    {
        ShareWriter {
            writer,
            geometry: *geometry,
            number,
            offset: 0,
            failed: false,
        }
    }

    /// Writes the next bytes of the blocks, the unused tree, the ciphertext tree, the block tree
    /// and the share hashes, which stand one behind another: a section, a part of one or several.
    /// The header goes before the first.
    ///
    /// Where the writer fails, a beginning of this is written. This call and all later ones then
    /// answer `WriterFault`, and those write nothing.
    pub fn put(&mut self, bytes: &[u8]) -> Result<(), LayoutError>
        requires room { self.old.failed ≡ false
            → next_offset self.old.geometry self.old.offset + length bytes.now
            ≤ (offsets_of self.old.geometry).extension_block }
        ensures written { OnOk result (Appends self.old.contents self.new.contents
            (beginning self.old.geometry self.old.offset ++ bytes.now)) }
        ensures ok { OnOk result (self.new ≡ record self.old {
          offset = next_offset self.old.geometry self.old.offset + length bytes.now;
          contents = self.new.contents;
        }) }
        ensures refused { IsOkUnless result LayoutError.WriterFault }
        ensures begun { OnErr result (AppendsBeginning self.old.contents self.new.contents
            (beginning self.old.geometry self.old.offset ++ bytes.now)) }
        ensures err { OnErr result (self.new ≡ record self.old {
          failed = true;
          contents = self.new.contents;
        }) }
        ensures for_good { IsTrue self.old.failed
            → (result ≡ Err LayoutError.WriterFault) × (self.new ≡ self.old) }
    {
        if self.failed {
            return Err(LayoutError::WriterFault);
        }
        let mut header = [0; 68];
        let length = spell_beginning(&self.geometry, self.offset, &mut header);
        if write_both(&mut self.writer, &header[..length], bytes).is_err() {
            self.failed = true;
            return Err(LayoutError::WriterFault);
        }
        self.offset += (length + bytes.len()) as u64;
        Ok(())
    }

    /// Writes the extension block, behind its length, after all other bytes. Nothing follows it.
    ///
    /// Where the writer fails, as `put` does.
    pub fn put_extension_block(&mut self, extension_block: &[u8]) -> Result<(), LayoutError>
        requires last { self.old.failed ≡ false
            → self.old.offset ≡ (offsets_of self.old.geometry).extension_block }
        requires short { self.old.failed ≡ false → length extension_block.now ≤ max_length }
        ensures written { OnOk result (Appends self.old.contents self.new.contents
            (ending self.old.geometry extension_block.now)) }
        ensures ok { OnOk result (self.new ≡ record self.old {
          offset = self.old.offset + length (ending self.old.geometry extension_block.now);
          contents = self.new.contents;
        }) }
        ensures refused { IsOkUnless result LayoutError.WriterFault }
        ensures begun { OnErr result (AppendsBeginning self.old.contents self.new.contents
            (ending self.old.geometry extension_block.now)) }
        ensures err { OnErr result (self.new ≡ record self.old {
          failed = true;
          contents = self.new.contents;
        }) }
        ensures for_good { IsTrue self.old.failed
            → (result ≡ Err LayoutError.WriterFault) × (self.new ≡ self.old) }
    {
        if self.failed {
            return Err(LayoutError::WriterFault);
        }
        let mut number = [0; 8];
        let width = spell_length(&self.geometry, extension_block.len() as u64, &mut number);
        if write_both(&mut self.writer, &number[..width], extension_block).is_err() {
            self.failed = true;
            return Err(LayoutError::WriterFault);
        }
        self.offset += (width + extension_block.len()) as u64;
        Ok(())
    }

    /// The share's number.
    pub fn number(&self) -> u16
        ensures { result ≡ self.now.number }
    {
        self.number
    }

    /// The writer, with what is written so far.
    pub fn inner(&self) -> &W
        ensures { W.contents result.now ≡ self.now.contents }
    {
        &self.writer
    }

    /// The writer, with what was written.
    pub fn into_inner(self) -> W
        ensures { W.contents result ≡ self.contents }
    {
        self.writer
    }
}

/// A law of the definitions: what is written for a share is the share, of the number that its share
/// hashes carry. The law is the contract; the call does nothing.
pub fn sections_make_a_share()
    ensures { SectionsMakeShare }
{}

// What is written before the next bytes, over the first bytes of `out`, and its length.
fn spell_beginning(geometry: &Geometry, offset: u64, out: &mut [u8; 68]) -> usize
    ensures text { take result out.new ≡ beginning geometry.now offset }
    ensures length { next_offset geometry.now offset ≡ offset + result }
    ensures range { result ≤ 68 }
    ensures small { (offsets_of geometry.now).extension_block < 2 ^ 41 }
{
    let _ = Offsets::of(geometry);
    if offset == 0 { geometry.header(out) } else { 0 }
}

// A number of the geometry's layout, over the first bytes of `out`, and its length.
fn spell_length(geometry: &Geometry, number: u64, out: &mut [u8; 8]) -> usize
    ensures text { take result out.new ≡ spelled (layout_of geometry.now) number }
    ensures range { result ≤ 8 }
    ensures small { (offsets_of geometry.now).extension_block < 2 ^ 41 }
{
    let layout = Offsets::of(geometry).layout;
    let width = layout.width();
    spell(layout, number, &mut out[..width]);
    width
}

// Writes bytes and then others. Where the writer fails, a beginning of them is written.
fn write_both<W: Write>(writer: &mut W, before: &[u8], bytes: &[u8]) -> Result<(), LayoutError>
    ensures written { OnOk result (Appends (W.contents writer.old) (W.contents writer.new)
        (before.now ++ bytes.now)) }
    ensures beginning { OnErr result
        (AppendsBeginning (W.contents writer.old) (W.contents writer.new)
        (before.now ++ bytes.now)) }
    ensures refused { IsOkUnless result LayoutError.WriterFault }
{
    write_whole(writer, before)?;
    write_whole(writer, bytes)
}

// Writes bytes. Where the writer fails, a beginning of them is written. A writer that was
// interrupted is asked again.
fn write_whole<W: Write>(writer: &mut W, bytes: &[u8]) -> Result<(), LayoutError>
    ensures written { OnOk result
        (Appends (W.contents writer.old) (W.contents writer.new) bytes.now) }
    ensures beginning { OnErr result
        (AppendsBeginning (W.contents writer.old) (W.contents writer.new) bytes.now) }
    ensures refused { IsOkUnless result LayoutError.WriterFault }
{
    let mut rest = bytes;
    'turns: for _ in 0..u64::MAX {
        if rest.is_empty() {
            return Ok(());
        }
        match writer.write(rest) {
            Ok(0) => return Err(LayoutError::WriterFault),
            Ok(n) => rest = &rest[n..],
            Err(error) => {
                if error.kind() != ErrorKind::Interrupted {
                    return Err(LayoutError::WriterFault);
                }
            }
        }
    }
    Err(LayoutError::WriterFault)
}
