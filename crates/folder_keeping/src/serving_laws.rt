//! What holds of every server whose store is over a disk. Each law is a contract; its call does
//! nothing.

ghost use Rattle.folder_keeping.specs.Served.{ClosedAreServed, SafeAreServed, ServersAreOrderly};
ghost use Rattle.folder_keeping.specs.Served.{WholeCanBeRelied};

use disks::disk::Disk;
use disks::laws::durable_outlasts;
use tagged_hash::hashes_have_32_bytes;

/// All that servers do to their stores are orderly calls.
pub fn servers_are_orderly<D: Disk>()
    ensures { ServersAreOrderly (record {
      folder = D.folder;
      honest = D.honest;
      relied = D.relied;
      inode = D.inode;
    }) }
{
    hashes_have_32_bytes();
}

/// A share that is safe when a server begins is so from then on, and is answered so.
pub fn safe_are_served<D: Disk>()
    ensures { SafeAreServed (record {
      folder = D.folder;
      honest = D.honest;
      relied = D.relied;
      inode = D.inode;
    }) }
{
    durable_outlasts();
    hashes_have_32_bytes();
}

/// A share that a server closes, and is relied on, is there after each crash.
pub fn closed_are_served<D: Disk>()
    ensures { ClosedAreServed (record {
      folder = D.folder;
      honest = D.honest;
      relied = D.relied;
      inode = D.inode;
    }) }
{
    durable_outlasts();
    hashes_have_32_bytes();
}

/// Each share can be relied on, and whole shares alone.
pub fn whole_can_be_relied()
    ensures { WholeCanBeRelied }
{
    hashes_have_32_bytes();
}
