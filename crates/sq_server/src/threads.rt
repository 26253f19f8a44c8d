//! Whether the threads of a server can be had.
use std::alloc::Global;
use std::sync::{Mutex, Wait};
use std::thread;
use std::thread::Threads;

/// Whether so many threads can be had beside the one that calls, all of them at one time. Each waits until the last one is made, and
/// has ended when this returns.
pub(crate) fn has_threads<R: Threads + Wait + Sync>(rt: &R, alloc: Global, count: u32) -> bool {
    let gate = Mutex::new(());
    let shut = gate.lock(rt);
    thread::scope(thread::scope_env(), rt, |scope| -> bool {
        let mut threads = Vec::new(alloc);
        let mut all = true;
        for _ in 0..count {
            let made = match scope.spawn(|| drop(gate.lock(rt))) {
                Ok(thread) => threads.push(thread).is_ok(),
                Err(_) => false,
            };
            if !made {
                all = false;
                break;
            }
        }
        drop(shut);
        for thread in threads {
            thread.join(rt);
        }
        all
    })
}
