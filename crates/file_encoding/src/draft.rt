// Shares while they are written.

ghost use Rattle.std.specs.Prelude.{◌≡◌, ◌+◌, ◌≤◌, ◌<◌, ◌++◌, length, IfOk, OnOk};
ghost use Rattle.ueb.specs.Limits.{max_length};
ghost use Rattle.share_layout.specs.Layout.{header, offsets_of};
ghost use Rattle.share_layout.specs.Writing.{ending};

use crate::share::Share;
use share_layout::{Geometry, Offsets, ShareWriter};
use std::alloc::{AllocError, Global};
use std::marker::Model;
use ueb::MAX_LENGTH;

/// A share that is not whole yet, in memory that has room for all of it.
#[derive(Drop)]
pub(crate) struct Draft {
    writer: ShareWriter<Vec<u8>>,
}

impl Model for Draft {
    ghost use Rattle.std.specs.Prelude.{◌≡◌, false};
    ghost use Rattle.file_encoding.specs.Drafts.{DraftState, HasHeader, bytes_in};

    ghost Value = { DraftState };

    ghost view = { λ d. record {
      geometry = d.writer.geometry;
      number = d.writer.number;
      bytes = bytes_in d.writer;
    } };

    ghost invariant = { λ d. d.writer.failed ≡ false → HasHeader d.writer };
}

impl Draft {
    /// Begins share `number` of a file with this geometry: its header.
    pub(crate) fn begin(
        alloc: Global,
        geometry: &Geometry,
        number: u16,
    ) -> Result<Draft, AllocError>
        ensures { IfOk result (λ draft. draft ≡ record {
          geometry = geometry.now;
          number = number;
          bytes = header geometry.now;
        }) }
    {
        let bytes = Vec::with_capacity(alloc, room(geometry))?;
        let mut writer = ShareWriter::new(bytes, geometry, number);
        // The header goes before the first bytes, though these be none.
        match writer.put(&[]) {
            Ok(()) => Ok(Draft { writer }),
            Err(_) => Err(AllocError),
        }
    }

    /// The share's number.
    pub(crate) fn number(&self) -> u16
        ensures { result ≡ self.now.number }
    {
        self.writer.number()
    }

    /// The share's bytes so far.
    pub(crate) fn bytes(&self) -> &[u8]
        ensures { result.now ≡ self.now.bytes }
    {
        self.writer.inner()
    }

    /// Writes the next bytes of the sections before the extension block, which have room for them.
    pub(crate) fn put(&mut self, bytes: &[u8]) -> Result<(), AllocError>
        requires { length self.old.bytes + length bytes.now
            ≤ (offsets_of self.old.geometry).extension_block }
        ensures { OnOk result (self.new ≡ record self.old {
          bytes = self.old.bytes ++ bytes.now;
        }) }
    {
        match self.writer.put(bytes) {
            Ok(()) => Ok(()),
            Err(_) => Err(AllocError),
        }
    }

    /// The share whose other sections are written, with its extension block.
    pub(crate) fn finish(self, extension_block: &[u8]) -> Result<Share, AllocError>
        requires last { length self.bytes ≡ (offsets_of self.geometry).extension_block }
        requires short { length extension_block.now ≤ max_length }
        ensures { IfOk result (λ share.
            share ≡ self.bytes ++ ending self.geometry extension_block.now) }
    {
        let mut writer = self.writer;
        match writer.put_extension_block(extension_block) {
            Ok(()) => Ok(Share::from_vec(writer.into_inner())),
            Err(_) => Err(AllocError),
        }
    }
}

/// A share up to its block tree, and that tree's root.
#[derive(Drop)]
pub(crate) struct Begun {
    pub draft: Draft,
    pub root: [u8; 32],
    // The share hashes are written next.
    ghost next: { length draft.bytes ≡ (offsets_of draft.geometry).share_hashes },
    ghost in_range: { draft.number < draft.geometry.total },
}

// The greatest length of a share, in bytes.
fn room(geometry: &Geometry) -> usize {
    let offsets = Offsets::of(geometry);
    offsets.extension_block as usize + offsets.layout.width() + MAX_LENGTH
}
