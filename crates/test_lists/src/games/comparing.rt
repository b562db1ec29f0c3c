//! What a session tells of its lists, against a fresh check and against what it told before.

use pv_edit::{Done, VerdictRow, VerdictRows};
use pv_fresh::check_doc;
use pv_missing::Verdicts;
use pv_session::Session;
use pv_steps::Steps;
use pv_tree::Verdict;
use std::alloc::Global;
use std::sync::ledger::Ledger;
use std::test::Fail;

// The numbers of Possible and of Impossible lists, and the first of these, are those of a fresh
// check.
fn expect_counts(session: &Session, fresh: &Verdicts) -> Result<(), Fail> {
    let mut bad: u64 = 0;
    for k in 0..fresh.len() {
        if fresh.at(k) == Some(Verdict::Impossible) {
            bad = bad.saturating_add(1);
        }
    }
    if fresh.left() != session.open_count() || bad != session.bad_count() {
        return Err(Fail::new("a fresh check counts other verdicts"));
    }
    let told = session.verdicts()?;
    if first_places(&told) != first_places(fresh) {
        return Err(Fail::new("the first impossible list is another"));
    }
    Ok(())
}

// The places of the first impossible list.
fn first_places(verdicts: &Verdicts) -> Option<&[u32]> {
    verdicts.first_impossible().map(|path| path.places())
}

/// The rows of the session are, in document order, the lists of its document with the verdicts that
/// a fresh check finds, and its numbers those of the check.
pub fn expect_fresh<L: Ledger>(
    alloc: Global,
    session: &Session,
    rows: &VerdictRows,
    root: &str,
    steps: &mut Steps<L>,
) -> Result<(), Fail> {
    let fresh = check_doc(
        alloc,
        session.grammar(),
        root.as_bytes(),
        session.doc(),
        steps,
    )?;
    expect_counts(session, &fresh)?;
    let rows = rows.as_slice();
    if fresh.len() != rows.len() as u64 {
        return Err(Fail::new("a fresh check counts other lists"));
    }
    let mut before: Option<&VerdictRow> = None;
    for (k, row) in rows.iter().enumerate() {
        let verdict = Some(row.verdict);
        if fresh.at(k as u64) != verdict || session.verdict_at(&row.path) != verdict {
            return Err(Fail::new("a verdict isn't that of a fresh check"));
        }
        if before.is_some_and(|last| last.path.places() >= row.path.places()) {
            return Err(Fail::new("the paths aren't in document order"));
        }
        before = Some(row);
    }
    Ok(())
}

/// So many lists have the stamp of this move, the last one.
pub fn expect_stamped(rows: &VerdictRows, done: Done, moves: u64) -> Result<(), Fail> {
    let rows = rows.as_slice();
    let changed = rows.iter().filter(|row| row.stamp == moves).count();
    if changed as u64 != u64::from(done.checked) || rows.iter().any(|row| row.stamp > moves) {
        return Err(Fail::new("other lists have the move's stamp"));
    }
    Ok(())
}

fn is_same(a: &VerdictRow, b: &VerdictRow) -> bool {
    a.path.places() == b.path.places() && a.verdict == b.verdict && a.stamp == b.stamp
}

/// The rows are the same.
pub fn expect_same(before: &VerdictRows, after: &VerdictRows) -> Result<(), Fail> {
    let (before, after) = (before.as_slice(), after.as_slice());
    if before.len() != after.len() || !before.iter().zip(after).all(|(a, b)| is_same(a, b)) {
        return Err(Fail::new("a refused move changed something"));
    }
    Ok(())
}
