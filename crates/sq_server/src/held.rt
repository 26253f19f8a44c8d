//! The run of a server's control, and how the server ends.
ghost use Rattle.std.specs.Prelude.{◌≡◌, ◌<◌, ◌≤◌, ◌^◌, [], IfSome};
ghost use Rattle.sq_commands.specs.declared.ends.Status.TheVariants as ends;
ghost use Rattle.sq_server.specs.Service.{IsServed, IsUnservedEnd, ended_status};

use crate::serving::serve;
use crate::starting::{Served, Start, Unserved};
use crate::world::World;
use sq_calls::DeskFault;
use sq_commands::Status;
use sq_control::{ControlPanel, PanelEnd};
use sq_outside::{Net, Parts};
use std::alloc::Global;
use std::sync::Wait;
use std::thread::Threads;

/// What a server hands back, however it ended.
#[derive(Drop)]
pub(crate) struct Back<'c, 'f, 's, 'o, L, J, F, S, O> {
    pub listener: L,
    pub journal: J,
    pub panel: ControlPanel<'c, 'f, 's, 'o, F, S, O>,
    pub status: Status,
}

// How a server ends whose panel ended so, by whether a note of its journal failed, and whether its listener did.
fn ended_status(end: PanelEnd, stopped: bool, failed: bool) -> Status
    ensures { result ≡ ended_status end stopped failed }
{
    match end {
        PanelEnd::ReadFault => Status::ReadFault,
        PanelEnd::WriteFault => Status::WriteFault,
        PanelEnd::Ended if !stopped && !failed => Status::Ok,
        PanelEnd::Faulted if !stopped && !failed => Status::WantOfMemory,
        _ => {
            if stopped {
                Status::JournalFault
            } else {
                Status::Net
            }
        }
    }
}

// How a server ends whose desk was not made.
fn unserved_status(fault: DeskFault) -> Status
    ensures end { IsUnservedEnd result }
    ensures journal { result ≡ ends.JournalFault → fault ≡ DeskFault.JournalFault }
    ensures noted { fault ≡ DeskFault.JournalFault → result ≡ ends.JournalFault }
{
    match fault {
        DeskFault::JournalFault => Status::JournalFault,
        _ => Status::WantOfMemory,
    }
}

/// Serves the links that come to the parts of a net which was opened, until the run of the panel has ended. The panel is
/// handed back with the references that it had.
pub(crate) fn run_panel<'c, 'f, 's, 'o, R: Threads + Wait + Sync, W: World>(
    rt: &R,
    alloc: Global,
    start: Start,
    parts: Parts<W::N>,
    journal: W::J,
    workers: u32,
    panel: ControlPanel<'c, 'f, 's, 'o, W::F, W::C, W::O>,
) -> Back<'c, 'f, 's, 'o, <W::N as Net>::L, W::J, W::F, W::C, W::O>
    requires empty { IfSome (W.J.history journal) (λ h. h ≡ []) }
    requires some { (0 < workers) × (workers ≤ 2 ^ 31) }
    ensures files { result.panel.files.ghost_name ≡ panel.entry.files.ghost_name }
    ensures input { result.panel.input.ghost_name ≡ panel.entry.input.ghost_name }
    ensures out { result.panel.out.ghost_name ≡ panel.entry.out.ghost_name }
    ensures served { IsServed (record { config = start.setup; offset = start.offset })
        (W.F.texts panel.entry.files.now) panel.entry.conf.now panel.entry.port
        (record {
          files = record {
            opened = W.F.opened panel.entry.files.now;
            faults = W.F.faults panel.entry.files.now;
          };
          streams = record {
            left = W.C.left panel.entry.input.now;
            input_faults = W.C.faults panel.entry.input.now;
            contents = W.O.contents panel.entry.out.now;
            output_faults = W.O.faults panel.entry.out.now;
          };
          journal = W.J.faults journal;
          net = 0;
        })
        (record {
          files = record {
            opened = W.F.opened result.panel.files.now;
            faults = W.F.faults result.panel.files.now;
          };
          streams = record {
            left = W.C.left result.panel.input.now;
            input_faults = W.C.faults result.panel.input.now;
            contents = W.O.contents result.panel.out.now;
            output_faults = W.O.faults result.panel.out.now;
          };
          journal = W.J.faults result.journal;
          net = W.N.L.faults result.listener;
        }) (W.J.history result.journal) result.status }
    ensures texts { W.F.texts result.panel.files.now ≡ W.F.texts panel.entry.files.now }
{
    match serve(rt, alloc, start, parts, journal, workers, panel) {
        Ok(served) => {
            let Served {
                listener,
                journal,
                panel,
                end,
                stopped,
                failed,
                ..
            } = served;
            Back {
                listener,
                journal,
                panel,
                status: ended_status(end, stopped, failed),
            }
        }
        Err(unserved) => {
            let Unserved {
                fault,
                listener,
                journal,
                panel,
            } = unserved;
            Back {
                listener,
                journal,
                panel,
                status: unserved_status(fault),
            }
        }
    }
}
