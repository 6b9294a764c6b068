//! The text of an extension block.

ghost use Rattle.std.specs.Prelude.{◌≡◌, ◌++◌, IfOk, OnOk};
ghost use Rattle.ueb.specs.Fields.{field_text};

use crate::block::Ueb;
use crate::error::UebError;
use crate::key::Key;
use std::alloc::{AllocError, Global};
use tagged_hash::DecimalText;

// A field at the end of a text.
fn push_field(text: &mut Vec<u8>, key: &[u8], value: &[u8]) -> Result<(), AllocError>
    ensures ok { OnOk result (text.new.items
        ≡ text.old.items ++ field_text (record { key = key.now; value = value.now })) }
{
    text.extend_from_slice(key)?;
    text.push(b':')?;
    text.extend_from_slice(DecimalText::new(value.len() as u64).as_bytes())?;
    text.push(b':')?;
    text.extend_from_slice(value)?;
    text.push(b',')?;
    Ok(())
}

impl Ueb {
    ghost use Rattle.std.specs.Prelude.{◌≡◌, IfOk, IsOkUnless};
    ghost use Rattle.ueb.specs.Block.{ueb_text, IsUeb};

    /// The block's text: its eleven fields, in the order of their keys.
    ///
    /// It has at most `MAX_LENGTH` bytes, and `Ueb::read` gives this block for it. Its only error
    /// is `OutOfMemory`.
    pub fn write(&self, alloc: Global) -> Result<Vec<u8>, UebError>
        ensures text { IfOk result (λ text. text.items ≡ ueb_text self.now) }
        ensures in_grammar { IfOk result (λ text. IsUeb text.items self.now) }
        ensures memory { IsOkUnless result UebError.OutOfMemory }
    {
        // What the type says of the block's numbers bounds the text's length.
        let _ = self.needed_shares();
        Ok(self.text(alloc)?)
    }

    fn text(&self, alloc: Global) -> Result<Vec<u8>, AllocError>
        ensures { IfOk result (λ text. text.items ≡ ueb_text self.now) }
    {
        let mut text = Vec::new(alloc);
        for key in Key::ALL {
            let value = self.value(key).text(alloc)?;
            push_field(&mut text, key.name().as_bytes(), &value)?;
        }
        Ok(text)
    }
}
