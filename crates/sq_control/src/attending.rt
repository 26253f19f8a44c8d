//! A control that follows the orders of its input.
ghost use Rattle.std.specs.Prelude.{◌≡◌, ◌⊎◌, List, true, ℕ, option_map};
ghost use Rattle.std.specs.Arc.{arc_value};
ghost use Rattle.std.specs.declared.option.Option.{Option};
ghost use Rattle.sq_outside.specs.World.{GivesMoment};
ghost use Rattle.sq_calls.specs.Moments.{IsTimely};
ghost use Rattle.sq_control.specs.Attending.{Attends};
ghost use Rattle.sq_control.specs.ControlViews.{desk_of};
ghost use Rattle.sq_control.specs.Renewing.{AddsRenewal, AreRenewed, Renewals, Renews};

use crate::control::{Control, Reread};
use crate::orders::{Order, next_order};
use crate::panel::PanelEnd;
use crate::writing::{write_listening, write_reread};
use sq_base::{EpochNo, Moment, Text};
use sq_calls::{ControlCalls, TellsJournal};
use sq_outside::{Failed, Files, Sink, Source};
use sq_rules::Config;
use std::sync::{Arc, Wait};

/// What stands beside the desk of a control, and its clock. Nothing is claimed of it but of that.
pub trait Beside {
    /// The moments that its clock will give, the next one first, where it tells them.
    ghost moments: { Self → Option (List ℕ) };

    /// What `must_end` needs.
    ghost callable: { Self → Type 0 };

    /// The epochs of which it learned, the newest first, where it tells them.
    ghost renewed: { Self → Renewals };

    /// The moment of this call.
    fn now(&mut self) -> Moment
        ensures moment { GivesMoment (moments self.old) (moments self.new) result }
        ensures renewed { renewed self.new ≡ renewed self.old }
        ensures callable { callable self.old → callable self.new };

    /// Learns that an epoch has begun, with its configuration, where that could be had.
    fn renew(&mut self, epoch: EpochNo, config: Option<Arc<Config>>, now: Moment)
        ensures renewed { AddsRenewal (renewed self.old) (renewed self.new)
            (record { epoch = epoch; config = option_map (λ c. arc_value c) config; now = now }) }
        ensures moments { moments self.new ≡ moments self.old }
        ensures callable { callable self.old → callable self.new };

    /// Whether the server has to end, as far as this is known: the desk has stopped since its journal failed, or the listener
    /// failed.
    fn must_end(&self) -> bool
        requires { callable self.now };
}

/// Of which types the files, the input and the output of a control are.
pub trait Console {
    type F: Files;

    type S: Source;

    type O: Sink;
}

impl<F: Files, S: Source, O: Sink> Console for (F, S, O) {
    type F = F;

    type S = S;

    type O = O;
}

// Tells of an epoch that has begun.
fn renew<K: TellsJournal, B: Beside>(desk: &K, beside: &mut B, reread: &Reread, now: Moment)
    ensures renews { Renews (K.configs desk.now) reread.now now (B.renewed beside.old)
        (B.renewed beside.new) }
    ensures moments { B.moments beside.new ≡ B.moments beside.old }
    ensures callable { B.callable beside.old → B.callable beside.new }
{
    if let Reread::Made(epoch) = reread {
        beside.renew(*epoch, desk.config(*epoch), now);
    }
}

// Whether the server has to end after a reconfiguration.
fn is_over<B: Beside>(reread: &Reread, beside: &B) -> bool
    requires { B.callable beside.now }
    ensures { reread.now ≡ Reread.Journal → result ≡ true }
{
    *reread == Reread::Journal || beside.must_end()
}

// How a control ends that was ordered to, or gets no more orders.
fn ending<B: Beside>(beside: &B) -> PanelEnd
    requires { B.callable beside.now }
    ensures { (result ≡ PanelEnd.Ended) ⊎ (result ≡ PanelEnd.Faulted) }
{
    if beside.must_end() {
        PanelEnd::Faulted
    } else {
        PanelEnd::Ended
    }
}

/// Says that the server listens at this port, and then follows the orders of the input until `shutdown`, the end or a
/// fault. At each `reconfigure` the file of this name is read, one reconfiguration is made of it, and a line says what
/// became of that.
pub fn attend<R: Wait, K: ControlCalls, I: Console, B: Beside>(
    rt: &R,
    port: u16,
    conf: &Text,
    control: &mut Control<K>,
    files: &mut I::F,
    input: &mut I::S,
    out: &mut I::O,
    beside: &mut B,
) -> PanelEnd
    requires { B.callable beside.old }
    // The orders were followed; and what stands beside learned of each reconfiguration that was made, in order.
    ensures attends { (a : Attends (I.F.texts files.old) conf.now port
        (record {
          files = record { opened = I.F.opened files.old; faults = I.F.faults files.old };
          desk = record {
            told = K.told (desk_of control.old);
            made = K.made (desk_of control.old);
            refused = K.refused (desk_of control.old);
          };
        })
        (record {
          files = record { opened = I.F.opened files.new; faults = I.F.faults files.new };
          desk = record {
            told = K.told (desk_of control.new);
            made = K.made (desk_of control.new);
            refused = K.refused (desk_of control.new);
          };
        })
        (record {
          left = I.S.left input.old;
          input_faults = I.S.faults input.old;
          contents = I.O.contents out.old;
          output_faults = I.O.faults out.old;
        })
        (record {
          left = I.S.left input.new;
          input_faults = I.S.faults input.new;
          contents = I.O.contents out.new;
          output_faults = I.O.faults out.new;
        })
        result)
        × AreRenewed (record { told = K.told; configs = K.configs }) (desk_of control.old) a.rereads
        (desk_of control.new) (B.renewed beside.old) (B.renewed beside.new) }
    ensures texts { I.F.texts files.new ≡ I.F.texts files.old }
    // Each reconfiguration was noted at a moment that the clock gave meanwhile, or the latest so far.
    ensures timely { IsTimely (B.moments beside.old) (B.moments beside.new)
        (K.told (desk_of control.old)) (K.told (desk_of control.new)) }
{
    match write_listening(out, port) {
        Ok(()) => {}
        Err(Failed) => return PanelEnd::WriteFault,
    }
    'orders: for _ in rt.forever() {
        match next_order(rt, input) {
            Ok(Order::Nothing) => {
                if beside.must_end() {
                    return PanelEnd::Faulted;
                }
            }
            Ok(Order::Reconfigure) => {
                let now = beside.now();
                let reread = control.reread(conf, files, now);
                renew(control.desk(), beside, &reread, now);
                match write_reread(out, &reread) {
                    Ok(()) => {}
                    Err(Failed) => return PanelEnd::WriteFault,
                }
                if is_over(&reread, &*beside) {
                    return PanelEnd::Faulted;
                }
            }
            Ok(Order::Shutdown) => return ending(&*beside),
            Ok(Order::End) => return ending(&*beside),
            Err(Failed) => return PanelEnd::ReadFault,
        }
    }
    unreachable!()
}
