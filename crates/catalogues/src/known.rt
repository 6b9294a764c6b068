//! What a catalogue tells of files by their names.

ghost use Rattle.std.specs.Prelude.{◌≡◌, ◌↔◌, ◌⊎◌, ℕ, Err, IfErr, IfOk, List, None, OnOk, Some};
ghost use Rattle.std.specs.Prelude.{if◌then◌else◌};
ghost use Rattle.std.specs.Str.{bytes_eq};
ghost use Rattle.catalogues.specs.Catalogues.{HasNoHead};
ghost use Rattle.catalogues.specs.Known.{AreRead, IsKnownFrom, cap_of, cap_under};

use crate::error::CatalogueError;
use crate::head::Head;
use crate::lines::Line;
use crate::reading::Catalogue;
use cap_text::Cap;
use std::alloc::{AllocError, Global};
use std::collections::BTreeMap;

/// What a catalogue tells of files by their names. It takes some 150 bytes for each name, beside
/// the name itself.
#[derive(Drop)]
pub struct Known {
    head: Head,
    caps: BTreeMap<Vec<u8>, Cap>,
    fault: Option<CatalogueError>,
}

impl Known {
    /// What a text tells, up to its end or to what is no line. `NotACatalogue` where it does not
    /// begin with a first line.
    pub fn read(alloc: Global, text: &[u8]) -> Result<Known, CatalogueError>
        ensures known { IfOk result (IsKnownFrom text.entry.now) }
        ensures refused { (result ≡ Err CatalogueError.NotACatalogue) ↔ HasNoHead text.entry.now }
        ensures only { IfErr result (λ fault. (fault ≡ CatalogueError.NotACatalogue)
            ⊎ (fault ≡ CatalogueError.OutOfMemory)) }
    {
        let mut catalogue = match Catalogue::open(text) {
            Ok(catalogue) => catalogue,
            Err(fault) => return Err(fault),
        };
        let head = *catalogue.head();
        let mut caps = BTreeMap::new(alloc);
        let fault = read_lines(alloc, &mut catalogue, &mut caps)?;
        Ok(Known { head, caps, fault })
    }

    /// What the first line tells.
    pub fn head(&self) -> &Head
        ensures { result.now ≡ self.now.head }
    {
        &self.head
    }

    /// Why a line was not read, with its number: what follows it was not looked at.
    pub fn fault(&self) -> Option<CatalogueError>
        ensures { result ≡ self.now.fault }
    {
        self.fault
    }

    /// The cap that the last line of a name has, if there is one.
    pub fn cap_of(&self, name: &[u8]) -> Option<Cap>
        ensures { result ≡ cap_of self.now name.now }
    {
        self.caps.get(name).copied()
    }
}

// Notes the caps of the lines that are left, and gives what is no line.
fn read_lines(
    alloc: Global,
    catalogue: &mut Catalogue<'_>,
    caps: &mut BTreeMap<Vec<u8>, Cap>,
) -> Result<Option<CatalogueError>, AllocError>
    requires first { catalogue.old.lines ≡ 1 }
    requires none { (name : List ℕ) → cap_under caps.old name ≡ None }
    ensures { IfOk result (λ fault. AreRead catalogue.old.left caps.new fault) }
{
    loop {
        match catalogue.next_line() {
            Ok(Some(line)) => note(alloc, caps, line)?,
            Ok(None) => return Ok(None),
            Err(fault) => return Ok(Some(fault)),
        }
    }
}

// Notes the cap of a line under its name.
fn note(alloc: Global, caps: &mut BTreeMap<Vec<u8>, Cap>, line: Line<'_>) -> Result<(), AllocError>
    ensures { OnOk result ((name : List ℕ) → cap_under caps.new name
        ≡ if bytes_eq line.entry.name name then Some line.entry.cap else cap_under caps.old name) }
{
    let Line { cap, name } = line;
    caps.insert(name.to_vec(alloc)?, cap)?;
    Ok(())
}
