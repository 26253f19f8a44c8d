//! Each note fails in turn.
use crate::desk::desks::{Ran, append, is_front, is_noted, run};
use crate::desk::jobs::LINES;
use std::alloc::Global;
use std::process::Abort;

/// Calls of a journal, at most.
const LIMIT: u64 = 100;

// The mark of a line where nothing fails.
fn mark_of(row: &str) -> &'static str {
    if row.ends_with(" => bad") || row.ends_with(" => stray") {
        "B"
    } else if row.ends_with(" => refused") {
        "R"
    } else if row.ends_with(" => none") {
        "-"
    } else {
        "."
    }
}

// The marks that the job has to have where the k-th note fails: from there on the desk is stopped.
fn wanted(rt: &impl Abort, alloc: Global, k: u64) -> String {
    let mut marks = String::new(alloc);
    let mut notes = 1u64;
    let mut stopped = false;
    for row in LINES.lines() {
        if stopped {
            append(rt, &mut marks, "S");
            continue;
        }
        if is_noted(row) {
            notes = notes.wrapping_add(1);
            stopped = notes == k;
        }
        append(rt, &mut marks, if stopped { "J" } else { mark_of(row) });
    }
    marks
}

// How many of the marks stand in a list.
fn count(marks: &str, list: &[u8]) -> usize {
    marks.as_bytes().iter().filter(|b| list.contains(b)).count()
}

// What has to stand after the job: each call that was made has its entry, and those are the first of the job; each call
// that was refused or failed is counted, and each line that was bad or stray.
fn is_kept(rt: &impl Abort, alloc: Global, ran: &Ran, begun: bool) -> bool {
    let marks = ran.marks.as_str();
    let entries = ran.journal.entries();
    let first = if begun { 1 } else { 0 };
    let made = count(marks, b".B").wrapping_add(first);
    let refused = if begun { count(marks, b"BRJS") } else { 0 };
    entries.len() == made && ran.refusals == refused as u64 && is_front(rt, alloc, entries)
}

// The job where the k-th note fails. Whether that came.
fn fails_at(rt: &impl Abort, alloc: Global, k: u64) -> bool {
    let fails = Vec::from_slice(alloc, &[k]).expect(rt, "memory");
    let ran = run(rt, alloc, fails);
    let marks = ran.marks.as_str();
    if k == 1 {
        assert!(rt; marks == "J", "begun: {marks}");
    } else {
        let wanted = wanted(rt, alloc, k);
        assert!(rt; marks == wanted.as_str(), "{k}: {marks} for {wanted}");
    }
    assert!(rt; is_kept(rt, alloc, &ran, k > 1), "{k}: {marks}");
    marks.contains("J")
}

// The job, until no note fails any more: how often it was run.
fn fail_in_turn(rt: &impl Abort, alloc: Global) -> u64 {
    for k in 1..=LIMIT {
        if !fails_at(rt, alloc, k) {
            return k;
        }
    }
    0
}

#[test]
fn each_note_fails_in_turn(rt: HostRuntime) {
    let runs = fail_in_turn(&rt, rt.alloc());
    // The begin entry, and 54 lines that add one.
    assert!(rt; runs == 56, "{runs} runs");
}
