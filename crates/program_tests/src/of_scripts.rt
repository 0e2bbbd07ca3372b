// Whole runs of scripts, with responses that were worked out by hand.
use crate::running::{Failing, Wanted, answers, fails};
use crate::samples::{
    ASKING, BAD_DOCUMENT, BAD_ID, BAD_JSON, BAD_NUMBER, BOTH, CLOSING_SEARCH, COMMIT, CONTINUE,
    GROUPS, LAST, MANY_WORKERS, NO_DOCUMENT, NO_ID, NO_JSON, NONE, NOT_IN_FL, NOT_WHOLE, ONE,
    ONE_WORKER, PUT, PUT_AND_COMMIT, PUT_THREE, PUT_TWO, SEARCH, SEARCH_BOTH, SEARCH_ID, STOPPED,
    THREE_WORKERS,
};
use handler_tests::samples::UPDATED;
use std::alloc::Global;
use std::sync::Wait;
use std::test::Fail;
use std::thread::Threads;
use std::time::Clock as SystemClock;
use tuple_values::Memory;

// Whether a script over two shards answers these requests so, to the end of its input.
fn replies<R: Threads + Wait + SystemClock + Sync>(
    rt: &R,
    alloc: Global,
    requests: &[&str],
    output: &[&str],
) -> Result<bool, Memory> {
    let wanted = Wanted {
        status: 0,
        output,
        errors: "",
    };
    answers(rt, alloc, "script c=2", requests, wanted)
}

#[test]
fn a_script_updates_and_searches(rt: HostRuntime) -> Result<(), Fail> {
    let requests = [PUT_AND_COMMIT, SEARCH];
    assert!(rt; replies(&rt, rt.alloc(), &requests, &[UPDATED, ONE])?);
    let later = [PUT, SEARCH, COMMIT, SEARCH];
    assert!(rt; replies(&rt, rt.alloc(), &later, &[UPDATED, NONE, UPDATED, ONE])?);
    Ok(())
}

#[test]
fn a_script_sorts_over_both_shards(rt: HostRuntime) -> Result<(), Fail> {
    let requests = [PUT_TWO, SEARCH_ID, SEARCH_BOTH];
    assert!(rt; replies(&rt, rt.alloc(), &requests, &[UPDATED, NOT_IN_FL, BOTH])?);
    Ok(())
}

#[test]
fn any_number_of_workers_gives_the_same(rt: HostRuntime) -> Result<(), Fail> {
    let requests = [PUT_THREE, ONE_WORKER, THREE_WORKERS, MANY_WORKERS];
    assert!(rt;
        replies(
            &rt,
            rt.alloc(),
            &requests,
            &[UPDATED, GROUPS, GROUPS, GROUPS]
        )?
    );
    Ok(())
}

#[test]
fn a_bad_body_is_told_and_the_script_goes_on(rt: HostRuntime) -> Result<(), Fail> {
    let requests = [BAD_ID, BAD_NUMBER, BAD_DOCUMENT, BAD_JSON, COMMIT];
    let told = [NO_ID, NOT_WHOLE, NO_DOCUMENT, NO_JSON, UPDATED];
    assert!(rt; replies(&rt, rt.alloc(), &requests, &told)?);
    Ok(())
}

fn stops<R: Threads + Wait + SystemClock + Sync>(
    rt: &R,
    alloc: Global,
    request: &str,
    reply: &str,
    errors: &str,
) -> Result<bool, Memory> {
    let wanted = Wanted {
        status: 5,
        output: &[UPDATED, reply],
        errors,
    };
    answers(rt, alloc, "script c=2", &[COMMIT, request], wanted)
}

#[test]
fn a_script_stops_at_what_is_refused_or_cut(rt: HostRuntime) -> Result<(), Fail> {
    for (request, reply, line) in &STOPPED {
        assert!(rt;
            stops(&rt, rt.alloc(), request, reply, line)?,
            "with {line}"
        );
    }
    Ok(())
}

#[test]
fn a_script_continues_and_closes(rt: HostRuntime) -> Result<(), Fail> {
    assert!(rt; replies(&rt, rt.alloc(), &[], &[])?);
    assert!(rt; replies(&rt, rt.alloc(), &[ASKING], &[CONTINUE, UPDATED])?);
    assert!(rt; replies(&rt, rt.alloc(), &[CLOSING_SEARCH, PUT], &[LAST])?);
    Ok(())
}

fn faults<R: Threads + Wait + SystemClock + Sync>(
    rt: &R,
    alloc: Global,
    failing: Failing,
    errors: &str,
) -> Result<bool, Memory> {
    fails(rt, alloc, "script c=2", COMMIT, failing, errors)
}

#[test]
fn a_fault_of_a_script_is_told(rt: HostRuntime) -> Result<(), Fail> {
    assert!(rt; faults(&rt, rt.alloc(), Failing::Input(1), "fault: input\n")?);
    assert!(rt; faults(&rt, rt.alloc(), Failing::Output(0), "fault: output\n")?);
    Ok(())
}
