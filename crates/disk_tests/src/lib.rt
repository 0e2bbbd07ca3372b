//! Tests of disks and of folders that hold them, of the bytes of entries and steps, and of logs, over
//! public calls, with bytes worked by hand from the format.
#![tactic(auto)]

#[cfg(test)]
mod disks;
#[cfg(test)]
mod entries;
#[cfg(test)]
mod logs;
#[cfg(test)]
mod of_append;
#[cfg(test)]
mod of_attach;
#[cfg(test)]
mod of_book_entries;
#[cfg(test)]
mod of_entries;
#[cfg(test)]
mod of_files;
#[cfg(test)]
mod of_folders;
#[cfg(test)]
mod of_logged_cells;
#[cfg(test)]
mod of_logged_sites;
#[cfg(test)]
mod of_memory_disk;
#[cfg(test)]
mod of_refusals;
#[cfg(test)]
mod of_reopen;
#[cfg(test)]
mod of_steps;
