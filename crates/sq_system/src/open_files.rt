//! The limit on files that the program may have open at once.

use std::fs::{self, File};
use std::io::Read;
use std::rt::Files;

/// How many files are open beside those of links: standard streams, the configuration, helper processes.
const OTHERS: u64 = 64;

/// How many files a worker has open at once: the sockets of its client and of an origin.
const EACH: u64 = 2;

// The first number behind the name of the limit.
fn limit_in(text: &str) -> Option<u64> {
    let line = text
        .lines()
        .find(|line| line.starts_with("Max open files"))?;
    line.split_whitespace().nth(3)?.parse().ok()
}

/// The limit, where the system says one.
fn limit<R: Files<File = File>>(rt: &R) -> Option<u64> {
    let mut text = [0u8; 4096];
    let mut file = fs::open(rt, "/proc/self/limits").ok()?;
    let count = file.read(&mut text).ok()?;
    limit_in(str::from_utf8(text.get(..count)?).ok()?)
}

/// The limit, and how many files so many workers may need, where the limit is less.
pub(crate) fn shortage<R: Files<File = File>>(rt: &R, workers: u32) -> Option<(u64, u64)> {
    let limit = limit(rt)?;
    let needed = u64::from(workers) * EACH + OTHERS;
    (limit < needed).then_some((limit, needed))
}
