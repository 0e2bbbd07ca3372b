// Tests over real files, which are made in the current folder and removed.
use disk_edge::{Disk, Disks, FileDisk, FolderDisks, MemoryDisk, MemoryDisks};
use std::fs::{File, remove_file};
use std::test::Fail;
use tuple_values::Text;

// What a table in threads asks of what it holds.
fn can_be_shared<T: Send + Sync>() {}

#[test]
fn disks_and_folders_can_be_shared_by_threads() {
    can_be_shared::<MemoryDisk>();
    can_be_shared::<FileDisk>();
    can_be_shared::<MemoryDisks>();
    can_be_shared::<FolderDisks<HostRuntime>>();
}

// Whether the whole file is this, through the bound.
fn is_whole<D: Disk>(disk: &mut D, want: &[u8]) -> bool {
    disk.size() == Ok(want.len() as u64)
}

fn writes_and_reads(disk: &mut FileDisk) -> bool {
    let mut room = [0; 2];
    disk.write_at(0, &[1, 2, 3]).is_ok()
        && disk.cut(2).is_ok()
        && disk.sync().is_ok()
        && disk.read(0, &mut room).is_ok()
        && room == [1, 2]
        && is_whole(disk, &[1, 2])
        && disk.read(1, &mut room).is_err()
        && disk.faults() == 1
        && disk.sync().is_ok()
}

#[test]
fn a_file_is_written_cut_and_read(rt: HostRuntime) -> Result<(), Fail> {
    let name = "a_file_is_written_cut_and_read.log";
    let file = File::options()
        .read(true)
        .write(true)
        .create(true)
        .truncate(true)
        .open(&rt, name)?;
    let mut disk = FileDisk::new(file);
    assert!(rt; writes_and_reads(&mut disk));
    remove_file(&rt, name)?;
    Ok(())
}

// The device of nothing takes a write and refuses a sync.
fn is_lost(disk: &mut FileDisk) -> bool {
    disk.write_at(0, &[1]).is_ok()
        && disk.faults() == 0
        && disk.sync().is_err()
        && disk.write_at(0, &[1]).is_err()
        && disk.size().is_err()
        && disk.sync().is_err()
        && disk.faults() == 4
}

#[test]
fn after_a_sync_that_failed_each_call_fails(rt: HostRuntime) -> Result<(), Fail> {
    let file = File::options()
        .read(true)
        .write(true)
        .open(&rt, "/dev/null")?;
    let mut disk = FileDisk::new(file);
    assert!(rt; is_lost(&mut disk));
    Ok(())
}

// Whether the disk of a name goes out with this length, is out, is written, and comes back.
fn goes_and_comes<D: Disks<Disk = FileDisk>>(disks: &mut D, name: &Text, size: u64) -> bool {
    let Ok(mut disk) = disks.disk(name) else {
        return false;
    };
    let is_out = disks.disk(name).is_err();
    let is_it = disk.size() == Ok(size) && disk.write_at(size, &[7]).is_ok();
    let is_synced = disk.sync().is_ok();
    disks.back(name, disk);
    is_out && is_it && is_synced
}

#[test]
fn a_file_goes_out_of_the_folder_once_and_keeps_its_bytes(rt: HostRuntime) -> Result<(), Fail> {
    let alloc = rt.alloc();
    let name = Text::of(alloc, "a_file_goes_out_of_the_folder.log")?;
    let mut disks = FolderDisks::new(rt.clone()?, alloc);
    assert!(rt; goes_and_comes(&mut disks, &name, 0));
    assert!(rt; goes_and_comes(&mut disks, &name, 1));
    remove_file(&rt, name.as_str())?;
    Ok(())
}

// Whether a file that is out of one folder is refused by the other until it comes back.
fn is_refused<D: Disks<Disk = FileDisk>>(disks: &mut D, other: &mut D, name: &Text) -> bool {
    let Ok(disk) = disks.disk(name) else {
        return false;
    };
    let is_locked = other.disk(name).is_err();
    disks.back(name, disk);
    is_locked && other.disk(name).is_ok()
}

#[test]
fn a_file_that_has_a_lock_is_refused(rt: HostRuntime) -> Result<(), Fail> {
    let alloc = rt.alloc();
    let name = Text::of(alloc, "a_file_that_has_a_lock.log")?;
    let mut disks = FolderDisks::new(rt.clone()?, alloc);
    let mut other = FolderDisks::new(rt.clone()?, alloc);
    assert!(rt; is_refused(&mut disks, &mut other, &name));
    remove_file(&rt, name.as_str())?;
    Ok(())
}
