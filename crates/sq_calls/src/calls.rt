//! What a desk's calls are to those who make them.
ghost use Rattle.std.specs.Prelude.{◌≡◌, ◌≤◌, ℕ, ⊤, Bool, List, None, Some, true, IfOk, IfSome, IsErrOf, IsSome, OnOk, Result, is_some};
ghost use Rattle.std.specs.Arc.{arc_value};
ghost use Rattle.sq_outside.specs.Causes.{count_limit};
ghost use Rattle.std.specs.declared.option.Option.{Option};
ghost use Rattle.sq_rules.specs.Configurations.{Configuration};
ghost use Rattle.sq_machine.specs.Entries.{History};
ghost use Rattle.sq_machine.specs.declared.entries.Event.TheVariants as event;
ghost use Rattle.sq_machine.specs.declared.entries.Told.TheVariants as answer;
ghost use Rattle.sq_calls.specs.declared.faults.DeskFault.{DeskFault as Fault};
ghost use Rattle.sq_calls.specs.declared.faults.DeskFault.TheVariants as fault;
ghost use Rattle.sq_calls.specs.Legality.{Beginning, IsStated};
ghost use Rattle.sq_calls.specs.Telling.{CountsReconfigured, CountsLine, CountsRefusal, IsAsking, IsClosing, IsDead, IsFailed, IsLine, IsOpening, IsReread, IsStarted, IsStep, IsStepTold, IsTakeTold, IsTaking, IsUnrefused, MayAct, Notes, NotesAs, Refuses, RefusesAt, got_told, reports_stop};

use crate::faults::DeskFault;
use sq_base::{Addr, CheckNo, ConnNo, EpochNo, Moment, ProcNo, Request, Texts, WantOfMemory};
use sq_channel::Got;
use sq_checks::Record;
use sq_machine::Act;
use sq_model::Stepped;
use sq_rules::Config;
use sq_urlmatch::Setup;
use std::alloc::Global;
use std::sync::Arc;

/// What a desk tells all who call it.
pub trait TellsJournal {
    /// The journal's entries, the newest first, where it tells them.
    ghost told: { Self → Option History };

    /// With what each desk of this type began, where it tells that.
    ghost first: { Option Beginning } = { None };

    /// How many calls were refused, or could not be noted, with the lines that were bad or stray. It never falls.
    ghost refused: { Self → ℕ };

    /// How many reconfigurations it made, where it tells that.
    ghost made: { Self → Option ℕ };

    /// The configuration of a live epoch, if there is such an epoch, where it tells that.
    ghost configs: { Self → ℕ → Option (Option Configuration) } = { λ _ _. None };

    /// The configuration of a live epoch; none, too, where it cannot be shared once more.
    fn config(&self, epoch: EpochNo) -> Option<Arc<Config>>
        ensures { IfSome (configs self.now epoch)
            (λ o. IfSome result (λ c. o ≡ Some (arc_value c))) };

    /// Whether this epoch lives, where it tells that.
    fn lives(&self, epoch: EpochNo) -> bool
        ensures { IfSome (configs self.now epoch) (λ o. result ≡ is_some o) };

    ghost capped: { (desk : Self) → refused desk ≤ count_limit };
}

/// What a client's session calls. Where the desk tells its entries, each call that is made notes one, at its moment or the
/// latest so far, in which stands what the machine does next; the call's answer is that, as far as the entry has it.
pub trait ConnCalls: TellsJournal {
    /// A client's connection opens.
    fn open(&mut self, conn: ConnNo, addr: Addr, port: u16, now: Moment) -> Result<(), DeskFault>
        ensures told { Notes Self.first now (λ _. answer.Fine) (IsOpening conn addr port)
            (Self.told self.old) (Self.told self.new) result }
        ensures refuses { Refuses Self.first now (event.Open conn addr port) (Self.told self.old)
            result }
        ensures refused { CountsRefusal (Self.refused self.old) (Self.refused self.new) result }
        ensures made { Self.made self.new ≡ Self.made self.old };

    /// A connection closes. It takes no memory.
    fn close(&mut self, conn: ConnNo, now: Moment) -> Result<(), DeskFault>
        ensures told { Notes Self.first now (λ _. answer.Fine) (IsClosing conn)
            (Self.told self.old) (Self.told self.new) result }
        ensures refuses { Refuses Self.first now (event.Close conn) (Self.told self.old) result }
        ensures memory { IsErrOf result fault.WantOfMemory → ⊥ }
        ensures refused { CountsRefusal (Self.refused self.old) (Self.refused self.new) result }
        ensures made { Self.made self.new ≡ Self.made self.old };

    /// A request arrives on a connection, and its check begins: its number.
    fn ask(
        &mut self,
        alloc: Global,
        conn: ConnNo,
        request: Request,
        now: Moment,
    ) -> Result<CheckNo, DeskFault>
        ensures told { Notes Self.first now answer.Check (IsAsking conn request)
            (Self.told self.old) (Self.told self.new) result }
        ensures refuses { Refuses Self.first now
            (event.Ask conn request.method request.target request.fields) (Self.told self.old)
            result }
        ensures refused { CountsRefusal (Self.refused self.old) (Self.refused self.new) result }
        ensures made { Self.made self.new ≡ Self.made self.old };

    /// A check goes on.
    fn step(&mut self, alloc: Global, check: CheckNo, now: Moment) -> Result<Stepped, DeskFault>
        ensures told { NotesAs Self.first now IsStepTold (IsStep check) (Self.told self.old)
            (Self.told self.new) result }
        ensures refuses { Refuses Self.first now (event.Step check) (Self.told self.old) result }
        ensures refused { CountsRefusal (Self.refused self.old) (Self.refused self.new) result }
        ensures made { Self.made self.new ≡ Self.made self.old };

    /// The outcome of a check is taken: the record of this check.
    fn take(&mut self, alloc: Global, check: CheckNo, now: Moment) -> Result<Record, DeskFault>
        ensures told { NotesAs Self.first now IsTakeTold (IsTaking check) (Self.told self.old)
            (Self.told self.new) result }
        ensures record { IfOk result (λ r. r.check ≡ check) }
        ensures refuses { Refuses Self.first now (event.Take check) (Self.told self.old) result }
        ensures refused { CountsRefusal (Self.refused self.old) (Self.refused self.new) result }
        ensures made { Self.made self.new ≡ Self.made self.old };
}

/// What the threads of helper processes call. Where the desk tells its entries, each call that is made notes one, at its
/// moment or the latest so far, in which stands what the machine does next; the call's answer is that, as far as the entry
/// has it. `act` notes none where nothing is due.
pub trait HelperCalls: TellsJournal {
    /// The words of the program of the class at a place of a live epoch, if there is such a class, where it tells that.
    ghost programs: { Self → ℕ → ℕ → Option (Option (List (List ℕ))) } = { λ _ _ _. None };

    /// Whether its last call reported that it has stopped, or that its journal failed.
    ghost is_stopped: { Self → Bool };

    /// A process of the class at a place of an epoch was started: its number.
    fn started(
        &mut self,
        alloc: Global,
        epoch: EpochNo,
        class: u32,
        now: Moment,
    ) -> Result<ProcNo, DeskFault>
        ensures told { Notes Self.first now answer.Proc
            (IsStarted Self.first (Self.told self.old) epoch class) (Self.told self.old)
            (Self.told self.new) result }
        ensures refuses { RefusesAt Self.first now (λ name. event.Started epoch name) epoch class
            (Self.told self.old) result }
        ensures refused { CountsRefusal (Self.refused self.old) (Self.refused self.new) result }
        ensures stopped { is_stopped self.new ≡ reports_stop result }
        ensures made { Self.made self.new ≡ Self.made self.old };

    /// A start of the class at a place of an epoch failed.
    fn start_failed(
        &mut self,
        alloc: Global,
        epoch: EpochNo,
        class: u32,
        now: Moment,
    ) -> Result<(), DeskFault>
        ensures told { Notes Self.first now (λ _. answer.Fine)
            (IsFailed Self.first (Self.told self.old) epoch class) (Self.told self.old)
            (Self.told self.new) result }
        ensures refuses { RefusesAt Self.first now (λ name. event.StartFail epoch name) epoch class
            (Self.told self.old) result }
        ensures refused { CountsRefusal (Self.refused self.old) (Self.refused self.new) result }
        ensures stopped { is_stopped self.new ≡ reports_stop result }
        ensures made { Self.made self.new ≡ Self.made self.old };

    /// A process wrote a line.
    fn line(
        &mut self,
        alloc: Global,
        proc: ProcNo,
        bytes: &[u8],
        now: Moment,
    ) -> Result<Got, DeskFault>
        ensures told { Notes Self.first now got_told (IsLine proc bytes.now) (Self.told self.old)
            (Self.told self.new) result }
        ensures refuses { Refuses Self.first now (event.Line proc bytes.now) (Self.told self.old)
            result }
        ensures refused { CountsLine (Self.refused self.old) (Self.refused self.new) result }
        ensures stopped { is_stopped self.new ≡ reports_stop result }
        ensures made { Self.made self.new ≡ Self.made self.old };

    /// A process died. It takes no memory.
    fn died(&mut self, proc: ProcNo, now: Moment) -> Result<(), DeskFault>
        ensures told { Notes Self.first now (λ _. answer.Fine) (IsDead proc)
            (Self.told self.old) (Self.told self.new) result }
        ensures refuses { Refuses Self.first now (event.Died proc) (Self.told self.old) result }
        ensures memory { IsErrOf result fault.WantOfMemory → ⊥ }
        ensures refused { CountsRefusal (Self.refused self.old) (Self.refused self.new) result }
        ensures stopped { is_stopped self.new ≡ reports_stop result }
        ensures made { Self.made self.new ≡ Self.made self.old };

    /// The next act that is due, which counts as made with this call. The machine refuses none. No program comes or goes with
    /// it.
    fn act(&mut self, alloc: Global, now: Moment) -> Result<Option<Act>, DeskFault>
        ensures told { MayAct Self.first now (Self.told self.old) (Self.told self.new) result }
        ensures refuses { Refuses Self.first now event.Act (Self.told self.old) result }
        ensures unrefused { IsUnrefused result }
        ensures refused { CountsRefusal (Self.refused self.old) (Self.refused self.new) result }
        ensures stopped { is_stopped self.new ≡ reports_stop result }
        ensures made { Self.made self.new ≡ Self.made self.old }
        ensures programs { programs self.new ≡ programs self.old };

    /// A copy of the words of the program of the class at a place of a live epoch.
    fn words(
        &self,
        alloc: Global,
        epoch: EpochNo,
        class: u32,
    ) -> Result<Option<Texts>, WantOfMemory>
        ensures { IfSome (programs self.now epoch class) (λ p. IfOk result (λ t. t ≡ p)) };
}

/// What the control of a server calls.
pub trait ControlCalls: TellsJournal {
    /// Whether each desk of this type tells that of a reconfiguration that it makes.
    ghost is_counting: { Bool };

    /// What `reconfigure` with a configuration at a moment answers and leaves, where a desk says more of it than its entries
    /// and counts tell: the desk before, the configuration, the moment, the answer, and the desk after.
    ghost rereads: { Self → Configuration → ℕ → Result ℕ Fault → Self
        → Type 0 } = { λ _ _ _ _ _. ⊤ };

    /// Another configuration is current, which is the one that its source states: the number of its epoch, which where
    /// `made` is told is one above it. Where the desk tells its entries, it notes one, at its moment or the latest so far.
    fn reconfigure(
        &mut self,
        alloc: Global,
        setup: Setup,
        now: Moment,
    ) -> Result<EpochNo, DeskFault>
        requires { IsStated setup }
        ensures told { Notes Self.first now answer.Epoch (IsReread setup) (Self.told self.old)
            (Self.told self.new) result }
        ensures refuses { Refuses Self.first now (event.Reconfigure setup.source)
            (Self.told self.old) result }
        ensures rereads { rereads self.old setup now result self.new }
        ensures refused { CountsRefusal (Self.refused self.old) (Self.refused self.new) result }
        ensures made { CountsReconfigured (Self.made self.old) (Self.made self.new) result }
        ensures counting { is_counting ≡ true → OnOk result (IsSome (Self.made self.old)) };
}

/// All calls of a desk.
pub trait DeskCalls: ConnCalls + HelperCalls + ControlCalls {}
