//! Readers that are put aside, as their servers are late, and read again.

ghost use Rattle.std.specs.Prelude.{◌≡◌, ◌≢◌, ℕ, ◌<◌, ◌++◌, ◌∷◌, [], OnErr, OnOk, Some, length};
ghost use Rattle.download_file.specs.Asked.{AsksNoMore};
ghost use Rattle.download_file.specs.Changes.{IsSameFile, StaysAskedUp, StaysRead};
ghost use Rattle.download_file.specs.Right.{IsFile};
ghost use Rattle.download_file.specs.State.{IsAside, IsLive, copies, giver, waiting_at, without};

use crate::file::PartialFile;
use crate::reader::{leave, resume_reader};
use std::alloc::AllocError;

impl PartialFile {
    /// The positions of the readers that are put aside.
    pub fn aside(&self) -> &[usize]
        ensures value { result.now ≡ self.now.aside }
        ensures right { IsFile self.now }
    {
        self.aside.as_slice()
    }

    /// A reader that is read is put aside: what is answered of it is taken still, and no segment is
    /// made of its blocks. Where memory is refused nothing changes.
    pub fn put_aside(&mut self, reader: usize) -> Result<(), AllocError>
        requires live { IsLive self.old reader }
        ensures live { OnOk result (self.new.live ≡ without reader self.old.live) }
        ensures aside { OnOk result (self.new.aside ≡ self.old.aside ++ reader ∷ []) }
        ensures unchanged { OnErr result (self.new ≡ self.old) }
        ensures copies { copies self.new ≡ copies self.old }
        ensures waiting { (other : ℕ) → waiting_at self.new other ≡ waiting_at self.old other }
        ensures asked { AsksNoMore self.old self.new }
        // Another giver of the ciphertext tree is to be asked for what was not taken.
        ensures asked_up { giver self.old ≢ Some reader → (other : ℕ)
            → StaysAskedUp self.old self.new other }
        ensures reads { StaysRead self.old self.new }
        // Nothing else changes.
        ensures handout { self.new.handout ≡ self.old.handout }
        ensures same { IsSameFile self.old self.new }
        ensures right { IsFile self.new }
    {
        self.aside.push(reader)?;
        leave(&mut self.readers, &mut self.live, &self.taken, reader);
        Ok(())
    }

    /// A reader that is put aside is read again, from the next segment on. Where memory is refused
    /// nothing changes.
    pub fn resume(&mut self, reader: usize) -> Result<(), AllocError>
        requires aside { IsAside self.old reader }
        requires few { length self.old.live < self.old.handout.geometry.needed }
        ensures live { OnOk result (self.new.live ≡ self.old.live ++ reader ∷ []) }
        ensures aside { OnOk result (self.new.aside ≡ without reader self.old.aside) }
        ensures unchanged { OnErr result (self.new ≡ self.old) }
        ensures copies { copies self.new ≡ copies self.old }
        ensures waiting { (other : ℕ) → waiting_at self.new other ≡ waiting_at self.old other }
        ensures asked { AsksNoMore self.old self.new }
        ensures asked_up { (other : ℕ) → IsLive self.old other
            → StaysAskedUp self.old self.new other }
        ensures reads { StaysRead self.old self.new }
        // Nothing else changes.
        ensures handout { self.new.handout ≡ self.old.handout }
        ensures same { IsSameFile self.old self.new }
        ensures right { IsFile self.new }
    {
        resume_reader(
            &mut self.readers,
            &mut self.live,
            &mut self.aside,
            &self.taken,
            reader,
        )
    }
}
