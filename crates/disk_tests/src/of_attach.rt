// Tests of opening a file.
use crate::logs::{LONGER, NEW, ONE, TORN, TWO, UNKNOWN, disk, last_writer};
use commit_log::{Log, LogFault};
use std::alloc::Global;
use std::test::Fail;

// The number of the steps, or why the file was refused.
fn reading(alloc: Global, bytes: &[u8], failing: &[u64]) -> Result<Result<usize, LogFault>, Fail> {
    match Log::attach(alloc, disk(alloc, bytes, failing)?) {
        Ok(attached) => Ok(Ok(attached.history.len())),
        Err(refused) => Ok(Err(refused.fault)),
    }
}

// Whether the file is this one, once it was opened.
fn becomes(alloc: Global, bytes: &[u8], want: &[u8]) -> Result<bool, Fail> {
    match Log::attach(alloc, disk(alloc, bytes, &[])?) {
        Ok(attached) => Ok(attached.log.into_disk().bytes() == want),
        Err(refused) => Ok(refused.disk.bytes() == want),
    }
}

#[test]
fn whole_steps_are_read(rt: HostRuntime) -> Result<(), Fail> {
    let alloc = rt.alloc();
    assert_eq!(rt; reading(alloc, &[], &[])?, Ok(0));
    assert_eq!(rt; reading(alloc, &NEW, &[])?, Ok(0));
    assert_eq!(rt; reading(alloc, &ONE, &[])?, Ok(1));
    assert_eq!(rt; reading(alloc, &TORN, &[])?, Ok(1));
    assert_eq!(rt; reading(alloc, &TWO, &[])?, Ok(2));
    Ok(())
}

// The writer of the first entry of the file's last step.
fn writer(alloc: Global, bytes: &[u8]) -> Result<Option<u64>, Fail> {
    match Log::attach(alloc, disk(alloc, bytes, &[])?) {
        Ok(attached) => Ok(last_writer(&attached.history)),
        Err(_) => Ok(None),
    }
}

#[test]
fn steps_are_read_as_they_were_written(rt: HostRuntime) -> Result<(), Fail> {
    let alloc = rt.alloc();
    assert_eq!(rt; writer(alloc, &NEW)?, None);
    assert_eq!(rt; writer(alloc, &ONE)?, Some(5));
    assert_eq!(rt; writer(alloc, &TWO)?, Some(6));
    Ok(())
}

#[test]
fn a_damaged_place_is_told(rt: HostRuntime) -> Result<(), Fail> {
    let alloc = rt.alloc();
    // Another format.
    assert_eq!(rt;
        reading(alloc, b"SSLOG009\x00", &[])?,
        Err(LogFault::Damaged { at: 0 })
    );
    // Fewer bytes than a file begins with.
    assert_eq!(rt;
        reading(alloc, b"SSLOG", &[])?,
        Err(LogFault::Damaged { at: 0 })
    );
    // Neither a step nor an end.
    assert_eq!(rt;
        reading(alloc, b"SSLOG001\x02", &[])?,
        Err(LogFault::Damaged { at: 8 })
    );
    // No byte that ends the steps.
    assert_eq!(rt;
        reading(alloc, &ONE[..34], &[])?,
        Err(LogFault::Damaged { at: 34 })
    );
    // A length past the end.
    assert_eq!(rt;
        reading(alloc, &ONE[..33], &[])?,
        Err(LogFault::Damaged { at: 8 })
    );
    Ok(())
}

#[test]
fn a_body_that_no_step_has_is_damaged(rt: HostRuntime) -> Result<(), Fail> {
    let alloc = rt.alloc();
    assert_eq!(rt;
        reading(alloc, &UNKNOWN, &[])?,
        Err(LogFault::Damaged { at: 34 })
    );
    assert_eq!(rt;
        reading(alloc, &LONGER, &[])?,
        Err(LogFault::Damaged { at: 8 })
    );
    Ok(())
}

#[test]
fn what_follows_the_steps_is_cut_off(rt: HostRuntime) -> Result<(), Fail> {
    let alloc = rt.alloc();
    assert!(rt; becomes(alloc, &TORN, &ONE)?);
    assert!(rt; becomes(alloc, &[], &NEW)?);
    assert!(rt; becomes(alloc, &TWO, &TWO)?);
    Ok(())
}

#[test]
fn a_damaged_file_stays_as_it_was(rt: HostRuntime) -> Result<(), Fail> {
    let alloc = rt.alloc();
    assert!(rt; becomes(alloc, &ONE[..34], &ONE[..34])?);
    assert!(rt; becomes(alloc, &UNKNOWN, &UNKNOWN)?);
    assert!(rt; becomes(alloc, &LONGER, &LONGER)?);
    Ok(())
}

// An opening makes five calls: sync, size, read, cut and sync, or for an empty file a write in place
// of the cut.
#[test]
fn each_call_of_an_opening_fails_in_turn(rt: HostRuntime) -> Result<(), Fail> {
    let alloc = rt.alloc();
    for failing in 0..5 {
        let one = reading(alloc, &TORN, &[failing])?;
        assert_eq!(rt; one, Err(LogFault::DiskFault), "call {failing}");
        let new = reading(alloc, &[], &[failing])?;
        assert_eq!(rt;
            new,
            Err(LogFault::DiskFault),
            "call {failing} of a new file"
        );
    }
    assert_eq!(rt; reading(alloc, &TORN, &[5])?, Ok(1));
    assert_eq!(rt; reading(alloc, &[], &[5])?, Ok(0));
    Ok(())
}
