//! A control as the panel of a server.
ghost use Rattle.std.specs.Prelude.{◌≡◌, ◌<◌, None};

use crate::attending::{Beside, attend};
use crate::control::Control;
use crate::panel::{Monitor, Panel, PanelEnd};
use sq_base::{EpochNo, Moment, Text};
use sq_calls::DeskCalls;
use sq_outside::{Files, Sink, Source};
use sq_pools::Bank;
use sq_rules::Config;
use sq_shared::{ControlDesk, Grants, Ledgers, Makes, Refusals, Room, is_stopped};
use std::alloc::Global;
use std::sync::ledger::Share;
use std::sync::{Arc, Mutex, Wait};

// The locks of the desk and of the pools, and the monitor of a control.
#[derive(Drop)]
struct Locks<'a, R, D: DeskCalls, B: Ledgers, M> {
    alloc: Global,
    rt: &'a R,
    room: &'a Room<D, B>,
    bank: &'a Mutex<Bank<Grants<B>>>,
    monitor: M,
}

impl<'a, R: Wait, D: DeskCalls, B: Ledgers, M: Monitor> Beside for Locks<'a, R, D, B, M> {
    ghost moments = { λ s. M.moments s.monitor };

    ghost callable = { λ s. M.callable s.monitor };

    ghost renewed = { λ _. None };

    fn now(&mut self) -> Moment {
        self.monitor.now()
    }

    // Want of memory, and a configuration that could not be had, are passed over: pools of either kind make the generation
    // where a seat is chosen.
    fn renew(&mut self, epoch: EpochNo, config: Option<Arc<Config>>, now: Moment) {
        if let Some(config) = config {
            let _ = sq_pools::renew(self.rt, self.alloc, self.bank, epoch, &config, now);
            let _ = sq_pools::renew_tags(self.rt, self.alloc, self.bank, epoch, &config, now);
        }
    }

    fn must_end(&self) -> bool {
        is_stopped(self.rt, self.room) || self.monitor.has_failed()
    }
}

/// The control of a server: the port at which that listens, the file from which its configuration is read again, the files,
/// the input and the output. Each has a lifetime of its own, so that who made it knows of each what came of it.
#[derive(Drop)]
pub struct ControlPanel<'c, 'f, 's, 'o, F, S, O> {
    pub alloc: Global,
    pub port: u16,
    pub conf: &'c Text,
    pub files: &'f mut F,
    pub input: &'s mut S,
    pub out: &'o mut O,
}

/// Lets a reference go: what it points to stays.
pub fn take_back<T>(x: &mut T)
    ensures { x.new ≡ x.old }
{}

impl<'c, 'f, 's, 'o, F: Files, S: Source, O: Sink> Panel for ControlPanel<'c, 'f, 's, 'o, F, S, O> {
    ghost use Rattle.sq_control.specs.Attending.{Runs};

    ghost gives = { λ s t end n.
        (t.files.ghost_name ≡ s.files.ghost_name) × (t.input.ghost_name ≡ s.input.ghost_name)
        × (t.out.ghost_name ≡ s.out.ghost_name)
        × (F.texts t.files.now ≡ F.texts s.files.now)
        × Runs (F.texts s.files.now) s.conf.now s.port
        (record { opened = F.opened s.files.now; faults = F.faults s.files.now })
        (record { opened = F.opened t.files.now; faults = F.faults t.files.now })
        (record {
          left = S.left s.input.now;
          input_faults = S.faults s.input.now;
          contents = O.contents s.out.now;
          output_faults = O.faults s.out.now;
        })
        (record {
          left = S.left t.input.now;
          input_faults = S.faults t.input.now;
          contents = O.contents t.out.now;
          output_faults = O.faults t.out.now;
        })
        (record { end = end; made = n }) };

    fn run<R: Wait, D: DeskCalls, B: Ledgers, M: Monitor + Drop>(
        self,
        rt: &R,
        room: &Room<D, B>,
        bank: &Mutex<Bank<Grants<B>>>,
        monitor: M,
        made: Share<Makes<B>>,
        refused: Share<Refusals<B>>,
    ) -> (Self, PanelEnd, Share<Makes<B>>) {
        let ControlPanel {
            alloc,
            port,
            conf,
            files,
            input,
            out,
        } = self;
        let mut locks: Locks<'_, R, D, B, M> = Locks {
            alloc,
            rt,
            room,
            bank,
            monitor,
        };
        let desk = ControlDesk::new(rt, room, made, refused);
        let mut control = Control::new(alloc, desk);
        let end = attend::<R, ControlDesk<'_, R, D, B>, (F, S, O), Locks<'_, R, D, B, M>>(
            rt,
            port,
            conf,
            &mut control,
            files,
            input,
            out,
            &mut locks,
        );
        let made = control.into_desk().finish();
        let panel = ControlPanel {
            alloc,
            port,
            conf,
            files,
            input,
            out,
        };
        (panel, end, made)
    }
}
