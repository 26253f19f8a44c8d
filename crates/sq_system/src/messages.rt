//! Lines for the administrator, at the end of the file that the variable `ACLPROXY_MESSAGES` names. Without it nothing is written.

use crate::open_files::shortage;
use std::alloc::Global;
use std::fs::{File, OpenOptions};
use std::io::Write;
use std::rt::{Env, Files};

/// The variable that names the file.
const MESSAGES: &str = "ACLPROXY_MESSAGES";

/// Opens the file that the variable names.
pub(crate) fn opened<R: Env + Files<File = File>>(rt: &R) -> Option<File> {
    let mut buffer = [0u8; 4096];
    let count = rt.var(MESSAGES, &mut buffer).ok()?;
    let path = str::from_utf8(buffer.get(..count)?).ok()?;
    OpenOptions::new()
        .append(true)
        .create(true)
        .open(rt, path)
        .ok()
}

// Writes a line in one piece. Where that is not possible there is none.
fn tell(messages: &mut Option<File>, line: &str) {
    if let Some(file) = messages {
        let _ = file.write_all(line.as_bytes());
    }
}

/// Says that so many workers are all in use, and how many clients wait.
pub(crate) fn tell_full(messages: &mut Option<File>, alloc: Global, workers: u64, waiting: usize) {
    if let Ok(line) = format!(in alloc;
        "all {workers} workers are in use, and {waiting} clients wait\n"
    ) {
        tell(messages, line.as_str());
    }
}

/// Says that the time for which links go on once the server is stopped was not stated as it has to be.
pub(crate) fn tell_linger(messages: &mut Option<File>) {
    tell(
        messages,
        "ACLPROXY_LINGER is no number from 1 to 86400: links go on for 30 seconds after shutdown\n",
    );
}

/// Says that fewer files can be open than so many workers may need, where that is so.
pub(crate) fn tell_shortage<R: Files<File = File>>(
    rt: &R,
    messages: &mut Option<File>,
    alloc: Global,
    workers: u32,
) {
    let Some((limit, needed)) = shortage(rt, workers) else {
        return;
    };
    if let Ok(line) = format!(in alloc;
        "{workers} workers may need {needed} open files, and {limit} can be open\n"
    ) {
        tell(messages, line.as_str());
    }
}
