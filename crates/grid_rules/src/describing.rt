//! Caps that are read of texts, and the lines that tell what they say.

ghost use Rattle.std.specs.Prelude.{◌≡◌, ◌↔◌, IfOk, Ok};
ghost use Rattle.std.specs.String.{string_bytes};
ghost use Rattle.cap_text.specs.CapText.{Spells};
ghost use Rattle.cap_text.specs.declared.cap.Cap.{Cap};
ghost use Rattle.grid_rules.specs.CapLines.{cap_lines, share_lines};

use cap_text::{Cap, VerifyCap};
use grid_faults::Fault;
use std::alloc::{AllocError, Global};

/// The cap that a text spells, or the fault of the text.
pub fn read_cap(text: &str) -> Result<Cap, Fault>
    ensures { (cap : Cap) → (result ≡ Ok cap) ↔ Spells text.now cap }
{
    Ok(Cap::parse(text.as_bytes())?)
}

/// The lines of a cap: its kind, its numbers, and the verify cap; of a literal cap its kind and
/// size.
pub fn cap_lines(alloc: Global, cap: &Cap) -> Result<String, AllocError>
    ensures { IfOk result (λ lines. string_bytes lines ≡ cap_lines cap.now) }
{
    match cap {
        Cap::Chk(cap) => share_lines(alloc, "chk", &cap.to_verify()),
        Cap::Verify(cap) => share_lines(alloc, "verify", cap),
        Cap::Lit(cap) => format!(in alloc; "kind lit\nsize {}\n", cap.data().len()),
    }
}

// The lines of a cap of a file that has shares.
fn share_lines(alloc: Global, kind: &str, cap: &VerifyCap) -> Result<String, AllocError>
    ensures { IfOk result (λ lines. string_bytes lines ≡ share_lines kind.now cap.now) }
{
    let (needed, total, size) = (cap.needed(), cap.total(), cap.size());
    format!(in alloc; "kind {kind}\nk {needed}\nn {total}\nsize {size}\nverify {cap}\n")
}
