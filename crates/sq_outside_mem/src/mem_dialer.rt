//! `MemDialer`: a dialer in memory, and the half of its dials that is read.
ghost use Rattle.std.specs.Prelude.{◌≡◌, ◌+◌, ◌<◌, ◌≤◌, [], ◌&&◌, ◌==◌, false, true, length, vec_len, vec_capacity, Some, IfOk, IfSome, OnErr, OnOk, IfNone, is_err, is_none, position, bytes_eq};
ghost use Rattle.std.specs.Io.{ReadsAtMost};
ghost use Rattle.std.specs.Io.KnownBytes.{ReadConsumes};
ghost use Rattle.sq_outside.specs.Calls.{next_call, counted};
ghost use Rattle.sq_outside.specs.Causes.{HasCause, TakesBack};
ghost use Rattle.sq_outside_mem.specs.Taking.{TakesFirst};
ghost use Rattle.sq_outside_mem.specs.Memory.{source_left, source_gives, source_step, source_fails, source_fails_next, source_calls, source_faults, sink_bytes, sink_faults};

use crate::mem_out::{MemOut, MemPair};
use crate::mem_source::MemSource;
use sq_base::{Text, WantOfMemory};
use sq_outside::{Another, Calls, Dialer, Failed, LinkUse, Source};
use std::alloc::Global;

/// The half of a dial that gives the origin's bytes. It tells the host and the port.
#[derive(Drop)]
pub struct MemIn {
    pub(crate) source: MemSource,
    pub(crate) host: Text,
    pub(crate) port: u16,
}

impl Source for MemIn {
    ghost use Rattle.sq_outside_mem.specs.MemoryWorld.{in_source, in_origin};

    ghost left = { λ s. Some (source_left (in_source s)) };

    ghost origin = { λ s. Some (in_origin s) };

    ghost faults = { λ s. source_faults (in_source s) };

    ghost capped = { λ s. s.source.calls.capped };

    fn read(&mut self, into: &mut [u8]) -> Result<usize, Failed>
        ensures bound { ReadsAtMost result into.new }
        ensures bytes { ReadConsumes (Some (source_left (in_source self.old)))
            (Some (source_left (in_source self.new))) result into.new }
        ensures origin { Some (in_origin self.new) ≡ Some (in_origin self.old) }
        ensures cause { HasCause (source_faults (in_source self.old))
            (source_faults (in_source self.new)) result }
        // It gives as many bytes as its source, and fails where that fails, and only there.
        ensures count { IfOk result (λ n. n ≡ source_gives (in_source self.old) (length into.old)) }
        ensures fails { is_err result ≡ source_fails_next (in_source self.old) }
        ensures counts { source_faults (in_source self.new)
            ≡ counted (source_fails_next (in_source self.old))
            (source_faults (in_source self.old)) }
        ensures calls { source_calls (in_source self.new)
            ≡ next_call (source_calls (in_source self.old)) }
        ensures list { source_fails (in_source self.new) ≡ source_fails (in_source self.old) }
        ensures step { source_step (in_source self.new) ≡ source_step (in_source self.old) }
    {
        self.source.read(into)
    }
}

/// An origin that answers one dial: its host and port, and the link to it.
#[derive(Drop)]
pub struct MemOrigin<'a> {
    pub host: Text,
    pub port: u16,
    pub pair: MemPair<'a>,
}

/// A dial that was given back: where it went, all the origin's bytes, and what was written to it.
#[derive(Drop)]
pub struct MemDial {
    pub host: Text,
    pub port: u16,
    pub bytes: Text,
    pub written: Text,
}

/// A dialer in memory. Each of its origins answers one dial, and it has room for as many dials as origins.
#[derive(Drop)]
pub struct MemDialer<'a> {
    pub(crate) alloc: Global,
    pub(crate) origins: Vec<MemOrigin<'a>>,
    pub(crate) made: usize,
    pub(crate) back: Vec<MemDial>,
    pub(crate) room: usize,
    pub(crate) whole: bool,
    pub(crate) calls: Calls,
    ghost places: { made + vec_len origins ≡ room },
    ghost held: { vec_len back ≤ room },
    ghost fits: { room ≤ vec_capacity back },
}

/// The place of the first origin of this host and port.
fn origin_place<'a>(origins: &[MemOrigin<'a>], host: &Text, port: u16) -> Option<usize>
    ensures { result ≡ position (λ o. bytes_eq o.host host.now && o.port == port) origins.now }
{
    let host = host.as_bytes();
    origins
        .iter()
        .position(|o| o.host.as_bytes() == host && o.port == port)
}

/// Takes the first origin of this host and port out of the list.
fn take_origin<'a>(
    origins: &mut Vec<MemOrigin<'a>>,
    host: &Text,
    port: u16,
) -> Option<MemOrigin<'a>>
    ensures found { is_none result
        ≡ is_none (position (λ o. bytes_eq o.host host.now && o.port == port) origins.old.items) }
    ensures taken { IfSome result
        (TakesFirst (λ o. bytes_eq o.host host.now && o.port == port) origins.old.items
        origins.new.items) }
    ensures host { IfSome result (λ o. o.host ≡ host.now) }
    ensures port { IfSome result (λ o. o.port ≡ port) }
    ensures len { IfSome result (λ _. vec_len origins.new + 1 ≡ vec_len origins.old) }
    ensures kept { IfNone result (origins.new ≡ origins.old) }
{
    let place = origin_place(origins.as_slice(), host, port)?;
    Some(origins.remove(place))
}

impl<'a> MemDialer<'a> {
    ghost use Rattle.std.specs.Prelude.{map};
    ghost use Rattle.sq_outside_mem.specs.MemoryWorld.{dialer_origins, dialer_told, dialer_room, dialer_fails, dialer_calls, dialer_faults, told_dial};

    /// A dialer to these origins, of which the listed dials are to fail.
    pub fn new(
        alloc: Global,
        origins: Vec<MemOrigin<'a>>,
        fails: Vec<u64>,
    ) -> Result<MemDialer<'a>, WantOfMemory>
        ensures origins { IfOk result (λ d. dialer_origins d ≡ origins.entry.items) }
        ensures told { IfOk result (λ d. dialer_told d ≡ Some (record { made = 0; back = [] })) }
        ensures room { IfOk result (λ d. dialer_room d ≡ length origins.entry.items) }
        ensures fails { IfOk result (λ d. dialer_fails d ≡ fails.items) }
        ensures calls { IfOk result (λ d. dialer_calls d ≡ 0) }
        ensures faults { IfOk result (λ d. dialer_faults d ≡ 0) }
    {
        let room = origins.len();
        let back = Vec::with_capacity(alloc, room)?;
        Ok(MemDialer {
            alloc,
            origins,
            made: 0,
            back,
            room,
            whole: true,
            calls: Calls::new(fails),
        })
    }

    /// The count of faults.
    pub fn faults(&self) -> u64
        ensures { result ≡ dialer_faults self.now }
    {
        self.calls.faults()
    }

    /// The dials that were given back, the oldest first.
    pub fn back(&self) -> &[MemDial]
        ensures { IfSome (dialer_told self.now) (λ d. d.back ≡ map told_dial result.now) }
    {
        self.back.as_slice()
    }
}

impl<'a> Dialer for MemDialer<'a> {
    ghost use Rattle.sq_outside.specs.Dials.{CallsMore, DialsMore, DialReaches, GivesDial, IsOpen};
    ghost use Rattle.sq_outside_mem.specs.MemoryLinks.{out_sink, out_closed};
    ghost use Rattle.sq_outside_mem.specs.MemoryWorld.{in_source, in_origin, dialer_origins, dialer_told, dialer_room, dialer_fails, dialer_lists_next, dialer_fails_next, dialer_calls, dialer_calls_told, dialer_faults, DialTakes, adds_dial};

    type In = MemIn;

    type Outgo = MemOut<'a>;

    ghost dialled = { dialer_told };

    ghost calls = { dialer_calls_told };

    ghost faults = { dialer_faults };

    ghost capped = { λ d. d.calls.capped };

    fn dial(
        &mut self,
        _alloc: Global,
        host: &Text,
        port: u16,
        _: LinkUse,
    ) -> Result<(MemIn, MemOut<'a>), Failed>
        ensures calls { CallsMore (dialer_calls_told self.old) (dialer_calls_told self.new) }
        ensures made { OnOk result (DialsMore (dialer_told self.old) (dialer_told self.new)) }
        ensures failed { OnErr result (dialer_told self.new ≡ dialer_told self.old) }
        ensures reaches { IfOk result (λ h. DialReaches (dialer_told self.new) host.now port
            (Some (in_origin h.0)) (Some (source_left (in_source h.0)))
            (Some (sink_bytes (out_sink h.1)))) }
        ensures open { IfOk result (λ h. IsOpen (Some (out_closed h.1))) }
        ensures fresh { IfOk result
            (λ h. (source_faults (in_source h.0) ≡ 0) × (sink_faults (out_sink h.1) ≡ 0)) }
        ensures cause { HasCause (dialer_faults self.old) (dialer_faults self.new) result }
        // The link is the one to the first origin of this host and port, which then is used up.
        ensures link { IfOk result
            (λ h. DialTakes (dialer_origins self.old) (dialer_origins self.new) host.now port
            (in_source h.0) h.1) }
        ensures kept { OnErr result (dialer_origins self.new ≡ dialer_origins self.old) }
        // A dial fails where it is listed, or no origin of this host and port is left, and only there; each
        // failure is counted.
        ensures fails { is_err result ≡ dialer_fails_next self.old host.now port }
        ensures counts { dialer_faults self.new
            ≡ counted (dialer_fails_next self.old host.now port) (dialer_faults self.old) }
        ensures tried { dialer_calls self.new ≡ next_call (dialer_calls self.old) }
        ensures list { dialer_fails self.new ≡ dialer_fails self.old }
        // The room for a dial that is given back stays.
        ensures room { dialer_room self.new ≡ dialer_room self.old }
    {
        self.calls.next()?;
        match take_origin(&mut self.origins, host, port) {
            None => {
                self.calls.raise();
                Err(Failed)
            }
            Some(origin) => {
                let MemOrigin { host, port, pair } = origin;
                let MemPair { from, to } = pair;
                self.made += 1;
                Ok((
                    MemIn {
                        source: from,
                        host,
                        port,
                    },
                    to,
                ))
            }
        }
    }

    fn give_back(&mut self, from: MemIn, to: MemOut<'a>)
        ensures given { GivesDial (dialer_told self.old) (dialer_told self.new)
            (Some (in_origin from)) (Some (sink_bytes (out_sink to.entry))) }
        ensures calls { dialer_calls_told self.new ≡ dialer_calls_told self.old }
        ensures cause { TakesBack (dialer_faults self.old) (dialer_faults self.new)
            (source_faults (in_source from) + sink_faults (out_sink to.entry)) }
        // A dial of its own finds room. Where there is none, since links of others came back, it tells no more.
        ensures kept { 0 < dialer_room self.old
            → dialer_told self.new ≡ adds_dial (dialer_told self.old) (in_origin from)
            (sink_bytes (out_sink to.entry)) }
        ensures room { 0 < dialer_room self.old → dialer_room self.new + 1 ≡ dialer_room self.old }
        ensures origins { dialer_origins self.new ≡ dialer_origins self.old }
        ensures tried { dialer_calls self.new ≡ dialer_calls self.old }
        ensures list { dialer_fails self.new ≡ dialer_fails self.old }
    {
        if from.source.calls.faults > 0 || to.sink.calls.faults > 0 {
            self.calls.raise();
        }
        if self.back.len() == self.room {
            self.whole = false;
            return;
        }
        let MemIn { source, host, port } = from;
        let dial = MemDial {
            host,
            port,
            bytes: Text::from_vec(source.into_text()),
            written: Text::from_vec(to.into_sink().into_bytes()),
        };
        self.back.push(dial).unwrap();
    }
}

impl<'a> Another for MemDialer<'a> {
    ghost use Rattle.sq_outside_mem.specs.MemoryWorld.{dialer_origins, dialer_told, dialer_fails, dialer_faults};

    /// A dialer that has no origins, so that each of its dials fails.
    fn another(&self) -> MemDialer<'a>
        ensures origins { dialer_origins result ≡ [] }
        ensures told { dialer_told result ≡ Some (record { made = 0; back = [] }) }
        ensures fails { dialer_fails result ≡ [] }
        ensures faults { dialer_faults result ≡ 0 }
    {
        MemDialer {
            alloc: self.alloc,
            origins: Vec::new(self.alloc),
            made: 0,
            back: Vec::new(self.alloc),
            room: 0,
            whole: true,
            calls: Calls::new(Vec::new(self.alloc)),
        }
    }
}
