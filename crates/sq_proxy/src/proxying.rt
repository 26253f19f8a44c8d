//! The top call.
ghost use Rattle.std.specs.Prelude.{◌≡◌, ◌≤◌, ◌↔◌, [], None, Some, IfSome, IsSome};
ghost use Rattle.sq_outside.specs.Causes.{Rose};
ghost use Rattle.sq_outside.specs.Told.{IsNotTold};
ghost use Rattle.sq_outside.specs.Output.{Grew};
ghost use Rattle.sq_commands.specs.declared.ends.Status.TheVariants as ends;
ghost use Rattle.sq_commands.specs.Commands.{command_of, output_of, AuditsFiles, IsNamed, MigratesTruly, RunsTruly};
ghost use Rattle.sq_commands.specs.Ends.{EndsBy, EndsWithoutFault, IfMissing};
ghost use Rattle.sq_commands.specs.Opened.{CameOf};
ghost use Rattle.sq_commands.specs.Outputs.{IsOutput};
ghost use Rattle.sq_server.specs.Service.{IsService};
ghost use Rattle.sq_commands.specs.Serving.{service_of};
ghost use Rattle.sq_replay.specs.Openings.{Added};

use sq_base::Text;
use sq_commands::{Status, read_service, run_command};
use sq_server::{Platform, World, serve_service};
use std::alloc::Global;
use std::sync::Wait;
use std::thread::Threads;

/// Does what the words say, over these files, and writes what comes of it: `parse CONF` reads the
/// configuration and counts what it states, `replay CONF SCRIPT` runs the script over the configuration
/// and writes a line for each event, `verify CONF JOURNAL` judges the journal over the configuration,
/// `migrate JOURNAL` writes a journal of version 1 as one of version 2, `rehearse N` runs a rehearsal of so many requests and writes what came of them, and
/// `serve CONF` with its options serves by the
/// configuration over this net: it notes what it does in the journal, reads its orders from the control source, and ends when that orders it or ends. The
/// words are those after the program's name. The seed is for the hashes of keys. The journal is handed back.
pub fn proxy<R: Threads + Wait + Sync, W: World>(
    platform: Platform<'_, R>,
    alloc: Global,
    words: &[Text],
    files: &mut W::F,
    out: &mut W::O,
    control: &mut W::C,
    net: &mut W::N,
    journal: W::J,
) -> (Status, Option<W::J>)
    requires { IfSome (W.J.history journal) (λ h. h ≡ []) }
    // What a command writes, where the files and the sink tell: its text, and the last line.
    ensures bytes { service_of words.now ≡ None
        → IfSome (W.F.texts files.old) (λ disk. Grew (W.O.contents out.old) (W.O.contents out.new)
        (IsOutput (output_of disk words.now) (W.O.faults out.old)
        (W.O.faults out.new) result.0)) }
    // Where the files tell their openings: CONF is opened first, once, then JOURNAL, once, or SCRIPT, and then what its lines name, as
    // far as it was run, in their order, and nothing else. What is written, how it ends, and what is true of a run and of a journal
    // that was judged, comes of the texts that these openings gave.
    ensures opened { service_of words.now ≡ None
        → Added (W.F.opened files.old) (W.F.opened files.new)
        (CameOf (command_of words.now) (W.O.contents out.old) (W.O.contents out.new)
        (W.O.faults out.old) (W.O.faults out.new) result.0) }
    // How it ends, where the files tell: so, or by a fault.
    ensures ended { service_of words.now ≡ None
        → IfSome (W.F.texts files.old)
        (λ disk. EndsBy (output_of disk words.now).end result.0) }
    // How it ends, where the files tell and no count rises: so, or by want of memory.
    ensures complete { service_of words.now ≡ None → IfSome (W.F.texts files.old) (λ disk.
        (Rose (W.F.faults files.old) (W.F.faults files.new) → ⊥)
        → (Rose (W.O.faults out.old) (W.O.faults out.new) → ⊥)
        → EndsWithoutFault (output_of disk words.now).end result.0) }
    // The history of a run is legal; each verdict in it is that of the configuration current when its check began, over what the
    // check saw then and answers that have their sources; each reconfiguration's is the configuration of its text; and between any two
    // places no bucket grants more than its level and what was restored.
    ensures truly { IfSome (W.F.texts files.old) (λ disk. RunsTruly disk words.now) }
    // Of a journal that was migrated whole, to one within the limits, `verify` ends well exactly where it ends well of the one that was read.
    ensures migrates { IfSome (W.F.texts files.old) (λ disk. MigratesTruly disk words.now) }
    // After `Ok` a journal that was judged is, byte for byte, the text of a history over the configuration that CONF holds and those that
    // the journal's reconfigurations hold, and all holds of it that holds of every run.
    ensures audits { service_of words.now ≡ None → result.0 ≡ ends.Ok
        → IfSome (W.F.texts files.old) (λ disk. AuditsFiles disk words.now) }
    ensures usage { (result.0 ≡ ends.Usage)
        ↔ ((command_of words.now ≡ None) × (service_of words.now ≡ None)) }
    ensures missing { service_of words.now ≡ None
        → IfMissing result.0
        (λ name. IsNamed (W.F.texts files.old) (command_of words.now) name
        × IsNotTold (W.F.texts files.old) name) }
    ensures read { service_of words.now ≡ None → result.0 ≡ ends.ReadFault
        → Rose (W.F.faults files.old) (W.F.faults files.new) }
    ensures write { result.0 ≡ ends.WriteFault → Rose (W.O.faults out.old) (W.O.faults out.new) }
    // The first fault of a device ends the run: where it ended otherwise, no count rose.
    ensures files_quiet { service_of words.now ≡ None → (result.0 ≡ ends.ReadFault → ⊥)
        → W.F.faults files.new ≡ W.F.faults files.old }
    ensures out_quiet { service_of words.now ≡ None → result.0 ≡ ends.Ok
        → W.O.faults out.new ≡ W.O.faults out.old }
    ensures files_later { service_of words.now ≡ None
        → W.F.faults files.old ≤ W.F.faults files.new }
    ensures out_later { service_of words.now ≡ None → W.O.faults out.old ≤ W.O.faults out.new }
    // A command leaves the journal, the control source and the net as they are.
    ensures untouched { service_of words.now ≡ None
        → (result.1 ≡ Some journal) × (control.new ≡ control.old) × (net.new ≡ net.old) }
    // The journal is handed back.
    ensures journal { IsSome result.1 }
    // A server: its journal, where it tells, is legal; how it ends by its configuration's file, each fault with its cause; and where it ended well, what
    // it wrote and what it did at each order.
    ensures serves { IfSome (service_of words.now)
        (λ s. IfSome result.1 (λ j. IsService s (W.F.texts files.old)
        (record {
          files = record { opened = W.F.opened files.old; faults = W.F.faults files.old };
          streams = record {
            left = W.C.left control.old;
            input_faults = W.C.faults control.old;
            contents = W.O.contents out.old;
            output_faults = W.O.faults out.old;
          };
          journal = W.J.faults journal;
          net = W.N.faults net.old;
        })
        (record {
          files = record { opened = W.F.opened files.new; faults = W.F.faults files.new };
          streams = record {
            left = W.C.left control.new;
            input_faults = W.C.faults control.new;
            contents = W.O.contents out.new;
            output_faults = W.O.faults out.new;
          };
          journal = W.J.faults j;
          net = W.N.faults net.new;
        }) (W.J.history j) result.0)) }
{
    match read_service(words) {
        Some(service) => {
            let (status, journal) = serve_service::<R, W>(
                platform, alloc, &service, files, out, control, net, journal,
            );
            (status, Some(journal))
        }
        None => (run_command(alloc, words, files, out), Some(journal)),
    }
}
