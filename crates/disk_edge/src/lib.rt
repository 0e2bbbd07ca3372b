//! Files as a log sees them: what a read gives, and what a stop may leave.
#![tactic(auto)]

mod change;
mod disk;
mod disks;
mod file_disk;
mod folder_disks;
mod memory_disk;
mod memory_disks;
mod named;

pub use disk::{Disk, DiskFailed};
pub use disks::Disks;
pub use file_disk::FileDisk;
pub use folder_disks::FolderDisks;
pub use memory_disk::MemoryDisk;
pub use memory_disks::MemoryDisks;
