//! A server by its words.
ghost use Rattle.std.specs.Prelude.{◌≡◌, ◌⊎◌, ◌≤◌, ◌<◌, ◌^◌, [], IfSome, pos, unwrap_or};
ghost use Rattle.std.specs.Io.KnownBytes.{Appends};
ghost use Rattle.sq_outside.specs.Causes.{Rose};
ghost use Rattle.sq_outside.specs.Output.{Grew, IsProperPrefix};
ghost use Rattle.sq_commands.specs.declared.ends.Status.TheVariants as ends;
ghost use Rattle.sq_commands.specs.Outputs.{IsSettled};
ghost use Rattle.sq_server.specs.Service.{CameTo, IsServed, IsService, stopped_line};
ghost use Rattle.sq_commands.specs.Serving.{shown_service};

use crate::held::{Back, run_panel};
use crate::starting::Start;
use crate::world::{Platform, World};
use sq_base::Text;
use sq_commands::{Options, Service, Status, finish, open_conf};
use sq_control::{ControlPanel, take_back};
use sq_machine::Offset;
use sq_outside::{Failed, Net, Parts, Sink, write_line};
use sq_rules::Config;
use std::alloc::Global;
use std::sync::Wait;
use std::thread::Threads;

/// How many workers serve connections where no option says.
const WORKERS: u32 = 8;

/// How a server begins: with what it starts, at which port its net was opened, the name of its configuration's file,
/// and how many workers it has.
#[derive(Drop)]
pub struct Plan<'a> {
    pub start: Start,
    pub port: u16,
    pub conf: &'a Text,
    pub workers: u32,
}

/// Serves the links that come to the parts of a net which was opened at this port, until the input orders the end, or its
/// end comes, or a fault. The journal and the listener are handed back.
pub fn serve_at<R: Threads + Wait + Sync, W: World>(
    rt: &R,
    alloc: Global,
    plan: Plan<'_>,
    files: &mut W::F,
    out: &mut W::O,
    control: &mut W::C,
    parts: Parts<W::N>,
    journal: W::J,
) -> (Status, W::J, <W::N as Net>::L)
    requires empty { IfSome (W.J.history journal) (λ h. h ≡ []) }
    requires some { (0 < plan.workers) × (plan.workers ≤ 2 ^ 31) }
    ensures served { IsServed
        (record { config = plan.entry.start.setup; offset = plan.entry.start.offset })
        (W.F.texts files.old) plan.entry.conf.now plan.entry.port
        (record {
          files = record { opened = W.F.opened files.old; faults = W.F.faults files.old };
          streams = record {
            left = W.C.left control.old;
            input_faults = W.C.faults control.old;
            contents = W.O.contents out.old;
            output_faults = W.O.faults out.old;
          };
          journal = W.J.faults journal;
          net = 0;
        })
        (record {
          files = record { opened = W.F.opened files.new; faults = W.F.faults files.new };
          streams = record {
            left = W.C.left control.new;
            input_faults = W.C.faults control.new;
            contents = W.O.contents out.new;
            output_faults = W.O.faults out.new;
          };
          journal = W.J.faults result.1;
          net = W.N.L.faults result.2;
        }) (W.J.history result.1) result.0 }
    ensures texts { W.F.texts files.new ≡ W.F.texts files.old }
{
    let Plan {
        start,
        port,
        conf,
        workers,
    } = plan;
    let panel = ControlPanel {
        alloc,
        port,
        conf,
        files,
        input: control,
        out,
    };
    let Back {
        listener,
        journal,
        panel,
        status,
    } = run_panel::<R, W>(rt, alloc, start, parts, journal, workers, panel);
    let ControlPanel {
        files,
        input,
        out,
        ..
    } = panel;
    take_back(files);
    take_back(input);
    take_back(out);
    (status, journal, listener)
}

// The port at which a server of this configuration listens: the option's, or else the configuration's.
fn port_of(options: &Options, config: &Config) -> u16
    ensures { result ≡ unwrap_or options.now.port config.now.port }
{
    match options.port {
        Some(port) => port,
        None => config.port(),
    }
}

// By how many minutes local time is ahead of UTC: the option's, or else 0.
fn offset_of(options: &Options) -> Offset
    ensures { result ≡ unwrap_or options.now.offset (pos 0) }
{
    match options.offset {
        Some(offset) => offset,
        None => Offset(0),
    }
}

// How many workers serve connections: what the option says, or else 8.
fn workers_of(options: &Options) -> u32
    ensures value { result ≡ unwrap_or options.now.workers 8 }
    ensures bound { (0 < result) × (result ≤ 2 ^ 31) }
{
    match options.workers {
        Some(workers) => workers.0,
        None => WORKERS,
    }
}

// Says of a server that ended well that it stopped.
fn write_stopped<O: Sink>(out: &mut O, status: Status) -> Status
    ensures ok { result ≡ ends.Ok
        → (status ≡ ends.Ok) × Appends (O.contents out.old) (O.contents out.new) stopped_line }
    ensures kept { (status ≡ ends.Ok → ⊥) → (result ≡ status) × (out.new ≡ out.old) }
    ensures short { status ≡ ends.Ok → result ≡ ends.WriteFault
        → Grew (O.contents out.old) (O.contents out.new)
        (λ part. IsProperPrefix part stopped_line) }
    ensures same { IsSettled status result }
    ensures write { result ≡ ends.WriteFault
        → (status ≡ ends.WriteFault) ⊎ Rose (O.faults out.old) (O.faults out.new) }
    ensures later { O.faults out.old ≤ O.faults out.new }
{
    match status {
        Status::Ok => match write_line(out, b"stopped", b"") {
            Ok(()) => Status::Ok,
            Err(Failed) => Status::WriteFault,
        },
        other => other,
    }
}

/// Serves by the configuration of a file and by options: it reads the file, opens the net, and serves until the input
/// orders the end, or its end comes, or a fault. The journal is handed back.
pub fn serve_conf<R: Threads + Wait + Sync, W: World>(
    platform: Platform<'_, R>,
    alloc: Global,
    service: &Service<'_>,
    files: &mut W::F,
    out: &mut W::O,
    control: &mut W::C,
    net: &mut W::N,
    journal: W::J,
) -> (Status, W::J)
    requires { IfSome (W.J.history journal) (λ h. h ≡ []) }
    ensures { CameTo [] (shown_service service.now) (W.F.texts files.old)
        (record {
          files = record { opened = W.F.opened files.old; faults = W.F.faults files.old };
          streams = record {
            left = W.C.left control.old;
            input_faults = W.C.faults control.old;
            contents = W.O.contents out.old;
            output_faults = W.O.faults out.old;
          };
          journal = W.J.faults journal;
          net = W.N.faults net.old;
        })
        (record {
          files = record { opened = W.F.opened files.new; faults = W.F.faults files.new };
          streams = record {
            left = W.C.left control.new;
            input_faults = W.C.faults control.new;
            contents = W.O.contents out.new;
            output_faults = W.O.faults out.new;
          };
          journal = W.J.faults result.1;
          net = W.N.faults net.new;
        }) (W.J.history result.1) result.0 }
{
    let setup = match open_conf(alloc, service.conf, files) {
        Ok(setup) => setup,
        Err(end) => return (end, journal),
    };
    let port = port_of(&service.options, setup.config());
    let workers = workers_of(&service.options);
    let parts = match net.parts(alloc, port, workers) {
        Ok(parts) => parts,
        Err(Failed) => return (Status::Net, journal),
    };
    let start = Start {
        setup,
        offset: offset_of(&service.options),
        seed: platform.seed,
    };
    let plan = Plan {
        start,
        port,
        conf: service.conf,
        workers,
    };
    let (status, journal, listener) = serve_at::<R, W>(
        platform.rt,
        alloc,
        plan,
        files,
        out,
        control,
        parts,
        journal,
    );
    net.give_back(listener);
    (write_stopped(out, status), journal)
}

/// The same, and then the last line.
pub fn serve_service<R: Threads + Wait + Sync, W: World>(
    platform: Platform<'_, R>,
    alloc: Global,
    service: &Service<'_>,
    files: &mut W::F,
    out: &mut W::O,
    control: &mut W::C,
    net: &mut W::N,
    journal: W::J,
) -> (Status, W::J)
    requires { IfSome (W.J.history journal) (λ h. h ≡ []) }
    ensures { IsService (shown_service service.now) (W.F.texts files.old)
        (record {
          files = record { opened = W.F.opened files.old; faults = W.F.faults files.old };
          streams = record {
            left = W.C.left control.old;
            input_faults = W.C.faults control.old;
            contents = W.O.contents out.old;
            output_faults = W.O.faults out.old;
          };
          journal = W.J.faults journal;
          net = W.N.faults net.old;
        })
        (record {
          files = record { opened = W.F.opened files.new; faults = W.F.faults files.new };
          streams = record {
            left = W.C.left control.new;
            input_faults = W.C.faults control.new;
            contents = W.O.contents out.new;
            output_faults = W.O.faults out.new;
          };
          journal = W.J.faults result.1;
          net = W.N.faults net.new;
        }) (W.J.history result.1) result.0 }
{
    let (status, journal) = serve_conf::<R, W>(
        platform, alloc, service, files, out, control, net, journal,
    );
    (finish(out, status), journal)
}
