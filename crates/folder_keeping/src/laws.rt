//! What holds of every store over a disk. Each law is a contract; its call does nothing.

ghost use Rattle.folder_keeping.specs.Kept.{ConfirmedStay, FoundAreSafe, SafeStay};

use disks::disk::Disk;
use disks::laws::durable_outlasts;

/// What is safe stays so through each run of a synced store over a disk that is honest to its end,
/// and all that is told of it is so.
pub fn safe_stay<D: Disk>()
    ensures { SafeStay (record {
      folder = D.folder;
      honest = D.honest;
      relied = D.relied;
      inode = D.inode;
    }) }
{
    durable_outlasts();
}

/// What a synced store finds when it is opened, with its bytes on the disk, is safe then, where it
/// is relied on.
pub fn found_are_safe<D: Disk>()
    ensures { FoundAreSafe (record {
      folder = D.folder;
      honest = D.honest;
      relied = D.relied;
      inode = D.inode;
    }) }
{}

/// What a close confirmed, and is relied on, is there after each crash.
pub fn confirmed_stay<D: Disk>()
    ensures { ConfirmedStay (record {
      folder = D.folder;
      honest = D.honest;
      relied = D.relied;
      inode = D.inode;
    }) }
{
    durable_outlasts();
}
