// Tests of daemon_board: that a board takes a daemon and lists it where there is memory, and that one that
// threads share answers alike.
use daemon_board::{Board, BoardFault, Claim, Daemons, SharedBoard};
use expr_check::Roots;
use expr_text::read_checked;
use std::alloc::Global;
use std::sync::Mutex;
use std::test::Fail;
use tuple_values::{Names, Text, Tuple, Value};

// Puts a daemon on the board, which rests for 5 milliseconds after a run.
fn is_started<D: Daemons>(alloc: Global, board: &mut D) -> Result<bool, Fail> {
    let id = Text::of(alloc, "x")?;
    let checked = read_checked(alloc, &Names::new(alloc), b"tuple(a=1)", Roots::All)?;
    Ok(board.start(alloc, id, checked, 5, true, 0).is_ok())
}

// Ends a run at 7 milliseconds, with a fault.
fn finish<D: Daemons>(alloc: Global, board: &mut D, claim: Claim) {
    if let Ok(fault) = Text::of(alloc, "BookFull 1000") {
        board.finish(claim, 0, Some(fault), 7);
    }
}

// Whether the daemon is due at 0, and after that run not at 11 yet.
fn runs<D: Daemons>(alloc: Global, board: &mut D) -> bool {
    match board.claim_due(0) {
        Some(claim) => finish(alloc, board, claim),
        None => return false,
    }
    board.claim_due(11).is_none()
}

fn is_text(value: Option<&Value>, text: &str) -> bool {
    match value {
        Some(Value::Text(told)) => told.as_str() == text,
        _ => false,
    }
}

// Whether a tuple tells one run, with its fault, of a daemon that runs on.
fn is_told(row: &Tuple) -> bool {
    row.count() == 4
        && is_text(row.get("id"), "x")
        && matches!(row.get("iterations"), Some(Value::Long(1)))
        && is_text(row.get("state"), "RUNNING")
        && is_text(row.get("fault"), "BookFull 1000")
}

fn is_listed<D: Daemons>(alloc: Global, board: &mut D) -> bool {
    match board.list(alloc) {
        Ok(rows) => rows.count() == 1 && is_told(rows.get(0)),
        Err(_) => false,
    }
}

fn is_started_and_listed<D: Daemons>(alloc: Global, board: &mut D) -> Result<bool, Fail> {
    let listed = is_started(alloc, board)? && runs(alloc, board) && is_listed(alloc, board);
    Ok(listed && is_next(alloc, board))
}

// Whether a daemon that isn't there is told so at each change.
fn is_unknown<D: Daemons>(board: &mut D) -> bool {
    matches!(board.stop("y"), Err(BoardFault::UnknownDaemon))
        && matches!(board.resume("y", 0), Err(BoardFault::UnknownDaemon))
        && matches!(board.kill("y"), Err(BoardFault::UnknownDaemon))
}

// Whether the one daemon is the next behind none, and there is no other behind it.
fn is_next<D: Daemons>(alloc: Global, board: &mut D) -> bool {
    match board.claim_next(0) {
        Some(claim) => finish(alloc, board, claim),
        None => return false,
    }
    board.claim_next(u64::MAX).is_none()
}

// Whether the daemon is stopped, isn't due then, runs again, and is taken off the board.
fn is_changed<D: Daemons>(board: &mut D) -> bool {
    let stopped = board.stop("x").is_ok() && board.claim_next(0).is_none();
    stopped && board.resume("x", 0).is_ok() && board.kill("x").is_ok()
}

// Whether the board answers each call as it should.
fn answers_rightly<D: Daemons>(alloc: Global, board: &mut D) -> Result<bool, Fail> {
    let begun = is_started_and_listed(alloc, board)? && !is_started(alloc, board)?;
    let changed = is_unknown(board) && is_changed(board);
    Ok(begun && changed && board.list(alloc)?.count() == 0)
}

#[test]
fn a_daemon_runs_and_is_listed(rt: HostRuntime) -> Result<(), Fail> {
    let mut board = Board::empty(rt.alloc());
    assert!(rt; answers_rightly(rt.alloc(), &mut board)?);
    Ok(())
}

#[test]
fn a_board_that_threads_share_answers_alike(rt: HostRuntime) -> Result<(), Fail> {
    let board = Mutex::new(Board::empty(rt.alloc()));
    let mut shared = SharedBoard::over(&rt, &board);
    assert!(rt; answers_rightly(rt.alloc(), &mut shared)?);
    Ok(())
}
