//! The names that a server has looked up: the trusted edge. Dialers and resolvers of one net share them, so that an origin is
//! dialled at addresses that a rule has seen. It relies on the system's look-up of names and on the file `/etc/hosts`.
//!
//! A look-up runs in a thread of its own, since the system's call cannot be stopped; who waits for it waits five seconds at most.
//! At most `MOST_RUNNING` such threads are there at once, and one for each name; those that nobody waits for any more end when the
//! system's call does.

use crate::house::{House, now};
use crate::link_stream::LinkStream;
use crate::names::{asked, hosts_addresses};
use crate::tcp_server::addr_of;
use libc::net::{AF_INET, AF_INET6, EAI_NODATA, EAI_NONAME};
use os::RawAddr;
use sq_base::{Addr, Addrs, Text};
use sq_outside::DialFault;
use std::alloc::Global;
use std::fs::File;
use std::io::Read;
use std::net::{IpAddr, Ipv6Addr};
use std::rt::Files;
use std::sync::atomic::{AtomicU64, Ordering};
use std::sync::{Arc, Mutex, Wait};
use std::thread::{self, Builder, Threads};
use std::time::{Clock, Duration};

/// Look-ups that the system may have under way at once.
const MOST_RUNNING: u64 = 256;

/// Names that are known at once. Where there are more, the one that came first is forgotten.
const MOST_NAMES: usize = 4096;

/// Milliseconds for which a dial uses what it looked up itself.
const OWN: u64 = 30_000;

/// Milliseconds for which a failure is one.
const FAILED: u64 = 5_000;

/// Milliseconds for which a rule is answered by what an earlier one found: as long as the machine keeps an answer.
const RULE: u64 = 60_000;

/// Milliseconds for which a dial uses what a rule found. It is more than the machine keeps the rule's answer, since a request that
/// was decided in its last moment is dialled later, perhaps behind a helper's answer.
const DECIDED: u64 = 90_000;

/// Milliseconds for which addresses stay at most where the rules' answers over them overlap.
const OLDEST: u64 = 180_000;

/// Milliseconds that a rule waits for the end of the last answer over the addresses before.
const PAUSE: u64 = 1_000;

/// Milliseconds that a look-up may take.
const PATIENCE: u64 = 5_000;

/// How many milliseconds pass until who waits for a look-up looks around.
const TICK: u64 = 250;

/// Milliseconds for which an address that failed or lost is tried last.
pub(crate) const LATE: u64 = 60_000;

/// Addresses of a name that are kept.
const MOST_ADDRS: usize = 32;

/// The stack of a look-up's thread.
const STACK: usize = 1 << 20;

/// How often a lock is tried that others hold for a moment alone.
const TRIES: u32 = 1_000;

/// An address, and the time when it failed or lost last; 0 is never.
#[derive(Drop)]
pub(crate) struct Known {
    pub(crate) addr: Addr,
    failed: AtomicU64,
}

impl Known {
    pub(crate) fn fail(&self, now: u64) {
        self.failed.store(now, Ordering::SeqCst);
    }

    /// Whether it failed or lost of late.
    pub(crate) fn is_late(&self, now: u64) -> bool {
        let failed = self.failed.load(Ordering::SeqCst);
        failed > 0 && now.saturating_sub(failed) < LATE
    }
}

/// The addresses of a host.
#[derive(Drop)]
pub(crate) struct FoundAddrs {
    pub(crate) known: Vec<Known>,
}

impl FoundAddrs {
    /// These addresses, of which those before keep the time when they failed.
    pub(crate) fn of(
        alloc: Global,
        addrs: &[Addr],
        before: &Option<Arc<FoundAddrs>>,
    ) -> Option<FoundAddrs> {
        let mut known = Vec::new(alloc);
        for addr in addrs {
            let failed = match before {
                Some(found) => found.failed(*addr),
                None => 0,
            };
            known
                .push(Known {
                    addr: *addr,
                    failed: AtomicU64::new(failed),
                })
                .ok()?;
        }
        Some(FoundAddrs { known })
    }

    // When this address failed.
    fn failed(&self, addr: Addr) -> u64 {
        for known in &self.known {
            if known.addr == addr {
                return known.failed.load(Ordering::SeqCst);
            }
        }
        0
    }

    fn has(&self, addr: Addr) -> bool {
        self.known.iter().any(|known| known.addr == addr)
    }

    // Those of these addresses that are among its own.
    fn shared(&self, alloc: Global, addrs: &[Addr]) -> Option<Addrs> {
        let mut both = Addrs::new(alloc);
        for addr in addrs {
            if self.has(*addr) {
                both.push(*addr).ok()?;
            }
        }
        Some(both)
    }

    /// Its addresses.
    pub(crate) fn addrs(&self, alloc: Global) -> Option<Addrs> {
        let mut addrs = Addrs::new(alloc);
        for known in &self.known {
            addrs.push(known.addr).ok()?;
        }
        Some(addrs)
    }
}

// A look-up of a name that the system makes, and what came of it: the state is 0 while it is under way, then 1, and 2 where there is
// no such name.
#[derive(Drop)]
struct LookUp {
    name: Text,
    state: AtomicU64,
    answer: Mutex<Option<Addrs>>,
}

impl LookUp {
    fn is_done(&self) -> bool {
        self.state.load(Ordering::SeqCst) > 0
    }

    // Waits for a moment, or until it is done.
    fn wait(&self, rt: &impl Wait) {
        self.state.park_timeout(rt, 0, Duration::from_millis(TICK));
    }

    // It is done. Its thread alone has used the lock so far.
    fn end(&self, found: Result<Addrs, DialFault>) {
        let state = match &found {
            Err(DialFault::NameNotFound) => 2,
            _ => 1,
        };
        for _ in 0..TRIES {
            if let Some(mut answer) = self.answer.try_lock() {
                *answer = found.ok();
                break;
            }
        }
        self.state.store(state, Ordering::SeqCst);
        self.state.wake_all();
    }

    // Whether it is done, and there is no such name.
    fn is_nameless(&self) -> bool {
        self.state.load(Ordering::SeqCst) > 1
    }

    // What came of it, once.
    fn take(&self) -> Result<Addrs, DialFault> {
        if self.is_nameless() {
            return Err(DialFault::NameNotFound);
        }
        match self.taken() {
            Some(addrs) => Ok(addrs),
            None => Err(DialFault::LookUpFailed),
        }
    }

    fn taken(&self) -> Option<Addrs> {
        self.answer.try_lock()?.take()
    }
}

// What is known of a name. Times are in milliseconds; 0 is never.
#[derive(Drop)]
struct NameEntry {
    name: Text,
    found: Option<Arc<FoundAddrs>>,
    // When these addresses were found first, and when the system was asked last.
    first: u64,
    checked: u64,
    // When a rule was answered by them last.
    ruled: u64,
    // When a look-up failed, and why.
    failed: u64,
    fault: DialFault,
    // The look-up that is under way, and since when.
    asked: Option<Arc<LookUp>>,
    since: u64,
}

// For whom a name is looked up.
#[derive(Clone, Copy, PartialEq, Eq)]
enum Asker {
    Rule,
    Dial,
}

/// Who waits for a look-up or a dial.
#[derive(Drop)]
pub(crate) enum Wanting<'a> {
    /// A rule, of the server of this house.
    Rule(&'a Option<Arc<House>>),
    /// A dial for this client, where it is known, beside this house.
    Dial(&'a Option<Arc<LinkStream>>, &'a Option<Arc<House>>),
}

impl<'a> Wanting<'a> {
    fn asker(&self) -> Asker {
        match self {
            Wanting::Rule(_) => Asker::Rule,
            Wanting::Dial(_, _) => Asker::Dial,
        }
    }

    /// Whether nobody wants it any more, as far as the system need not be asked: the server is stopped, or the doorkeeper has shut
    /// the client's link.
    pub(crate) fn has_ended(&self) -> bool {
        match self {
            Wanting::Rule(Some(house)) => house.is_stopped(),
            Wanting::Dial(Some(client), _) => client.is_ended(),
            _ => false,
        }
    }

    /// Whether nobody wants it any more: the server is stopped, or the client has reset its link.
    pub(crate) fn is_over(&self) -> bool {
        match self {
            Wanting::Rule(Some(house)) => house.is_stopped(),
            Wanting::Dial(Some(client), _) => client.is_gone(),
            _ => false,
        }
    }

    /// Why nobody wants it any more.
    pub(crate) fn fault(&self) -> DialFault {
        match self {
            Wanting::Dial(Some(client), Some(house)) if client.is_ended() => {
                if house.is_stopped() {
                    DialFault::Shutdown
                } else {
                    DialFault::GaveWay
                }
            }
            Wanting::Dial(_, _) => DialFault::ClientGone,
            Wanting::Rule(_) => DialFault::Shutdown,
        }
    }

    /// Whether a client waits for the worker that dials.
    pub(crate) fn is_crowded(&self) -> bool {
        match self {
            Wanting::Dial(_, Some(house)) => house.is_wanted(),
            _ => false,
        }
    }
}

// What comes next for who wants a name.
#[derive(Drop)]
enum LookUpNext {
    Found(Arc<FoundAddrs>),
    Failed(DialFault),
    Wait(Arc<LookUp>),
    Ask(Arc<LookUp>),
    Pause(u64),
}

fn is_within(now: u64, since: u64, time: u64) -> bool {
    since > 0 && now.saturating_sub(since) < time
}

impl NameEntry {
    // Whether an answer of a rule over these addresses may count still.
    fn is_ruled(&self, now: u64) -> bool {
        is_within(now, self.ruled, RULE)
    }

    // What is there without the system.
    fn given(&mut self, asker: Asker, now: u64) -> Option<LookUpNext> {
        let found = match &self.found {
            Some(found) => Arc::try_clone(found).ok(),
            None => None,
        };
        if let Some(found) = found {
            match asker {
                Asker::Rule if is_within(now, self.checked, RULE) => {
                    self.ruled = now;
                    return Some(LookUpNext::Found(found));
                }
                Asker::Dial if is_within(now, self.ruled, DECIDED) => {
                    return Some(LookUpNext::Found(found));
                }
                Asker::Dial if is_within(now, self.checked, OWN) => {
                    return Some(LookUpNext::Found(found));
                }
                _ => {}
            }
        }
        if is_within(now, self.failed, FAILED) {
            return Some(LookUpNext::Failed(self.fault));
        }
        let left = self.ruled.saturating_add(RULE).saturating_sub(now);
        if asker == Asker::Rule && self.is_ruled(now) && left <= PAUSE {
            return Some(LookUpNext::Pause(left));
        }
        None
    }

    // Takes what a look-up came to, unless nobody has asked for it for long.
    fn settle(&mut self, alloc: Global, now: u64) {
        let Some(asked) = &self.asked else {
            return;
        };
        if asked.is_done() {
            let found = asked.take();
            let is_new = now.saturating_sub(self.since) < OWN;
            self.asked = None;
            if is_new {
                self.answer(alloc, found, now);
            }
        }
    }

    // What comes next, where the system is asked for what is not there.
    fn next(&mut self, alloc: Global, asker: Asker, now: u64) -> LookUpNext {
        self.settle(alloc, now);
        if let Some(next) = self.given(asker, now) {
            return next;
        }
        let asked = match &self.asked {
            Some(asked) => match Arc::try_clone(asked) {
                Ok(asked) => return LookUpNext::Wait(asked),
                Err(_) => None,
            },
            None => new_asked(alloc, &self.name),
        };
        let Some((one, other)) = asked else {
            return LookUpNext::Failed(DialFault::OutOfMemory);
        };
        self.asked = Some(one);
        self.since = now;
        LookUpNext::Ask(other)
    }

    // A look-up has failed.
    fn fail(&mut self, now: u64, fault: DialFault) {
        self.failed = now;
        self.fault = fault;
    }

    // The system has answered. Where a rule's answer over the addresses before counts still, those alone stay that both answers
    // have; and where there are none, the ones before for some time, since no answer of a rule has seen the others.
    fn answer(&mut self, alloc: Global, found: Result<Addrs, DialFault>, now: u64) {
        let addrs = match found {
            Ok(addrs) => addrs,
            Err(fault) => {
                self.fail(now, fault);
                return;
            }
        };
        let ruled = self.is_ruled(now);
        let mut counts = Some(addrs);
        if let Some(before) = &self.found {
            if ruled {
                counts = match counts {
                    Some(addrs) => before.shared(alloc, addrs.as_slice()),
                    None => None,
                };
            }
        }
        let Some(addrs) = counts else {
            self.fail(now, DialFault::OutOfMemory);
            return;
        };
        if addrs.is_empty() {
            if ruled && is_within(now, self.first, OLDEST) {
                self.checked = now;
            } else {
                self.fail(now, DialFault::NameNotFound);
            }
            return;
        }
        self.know(alloc, addrs.as_slice(), now, ruled);
    }

    // These addresses are those of the name from now on.
    fn know(&mut self, alloc: Global, addrs: &[Addr], now: u64, ruled: bool) {
        let Some(found) = FoundAddrs::of(alloc, addrs, &self.found) else {
            self.fail(now, DialFault::OutOfMemory);
            return;
        };
        let Ok(found) = Arc::new(alloc, found) else {
            self.fail(now, DialFault::OutOfMemory);
            return;
        };
        self.found = Some(found);
        self.first = now;
        self.checked = now;
        self.failed = 0;
        if !ruled {
            self.ruled = 0;
        }
    }
}

fn new_asked(alloc: Global, name: &Text) -> Option<(Arc<LookUp>, Arc<LookUp>)> {
    let asked = LookUp {
        name: Text::from_slice(alloc, name.as_bytes()).ok()?,
        state: AtomicU64::new(0),
        answer: Mutex::new(None),
    };
    let asked = Arc::new(alloc, asked).ok()?;
    let other = Arc::try_clone(&asked).ok()?;
    Some((asked, other))
}

// The names in a ring, with a number for each, so that one is found without looking at all.
#[derive(Drop)]
struct NameTable {
    numbers: Vec<u64>,
    entries: Vec<NameEntry>,
    next: usize,
}

// A number of a name.
fn number_of(name: &[u8]) -> u64 {
    let mut number = 0xcbf2_9ce4_8422_2325u64;
    for &byte in name {
        number = (number ^ byte as u64).wrapping_mul(0x100_0000_01b3);
    }
    number
}

impl NameTable {
    fn new(alloc: Global) -> NameTable {
        NameTable {
            numbers: Vec::new(alloc),
            entries: Vec::new(alloc),
            next: 0,
        }
    }

    // The place of a name.
    fn place(&self, number: u64, name: &[u8]) -> Option<usize> {
        for place in 0..self.numbers.len() {
            if self.numbers[place] == number {
                let entry = self.entries.get(place)?;
                if entry.name.as_bytes() == name {
                    return Some(place);
                }
            }
        }
        None
    }

    // The entry of a name, which is made where there is none.
    fn entry(&mut self, alloc: Global, name: &[u8]) -> Option<&mut NameEntry> {
        let number = number_of(name);
        let place = match self.place(number, name) {
            Some(place) => place,
            None => self.put(alloc, number, name)?,
        };
        self.entries.get_mut(place)
    }

    // Puts a name into the ring.
    fn put(&mut self, alloc: Global, number: u64, name: &[u8]) -> Option<usize> {
        let entry = NameEntry {
            name: Text::from_slice(alloc, name).ok()?,
            found: None,
            first: 0,
            checked: 0,
            ruled: 0,
            failed: 0,
            fault: DialFault::LookUpFailed,
            asked: None,
            since: 0,
        };
        let place = self.next;
        if self.entries.len() < MOST_NAMES {
            self.numbers.push(number).ok()?;
            if self.entries.push(entry).is_err() {
                self.numbers.pop();
                return None;
            }
        } else {
            *self.numbers.get_mut(place)? = number;
            *self.entries.get_mut(place)? = entry;
        }
        let next = place.saturating_add(1);
        self.next = if next < MOST_NAMES { next } else { 0 };
        Some(place)
    }
}

/// The names that a server has looked up.
#[derive(Drop)]
pub(crate) struct LookUps {
    table: Mutex<NameTable>,
    // Hosts that are addresses, where a dial to them failed.
    literals: Mutex<NameTable>,
    running: AtomicU64,
}

impl LookUps {
    /// No name.
    pub(crate) fn new(alloc: Global) -> LookUps {
        LookUps {
            table: Mutex::new(NameTable::new(alloc)),
            literals: Mutex::new(NameTable::new(alloc)),
            running: AtomicU64::new(0),
        }
    }

    fn next(&self, alloc: Global, host: &str, asker: Asker, now: u64) -> LookUpNext {
        for _ in 0..TRIES {
            if let Some(mut table) = self.table.try_lock() {
                return match table.entry(alloc, host.as_bytes()) {
                    Some(entry) => entry.next(alloc, asker, now),
                    None => LookUpNext::Failed(DialFault::OutOfMemory),
                };
            }
            thread::yield_now();
        }
        LookUpNext::Failed(DialFault::LookUpFailed)
    }

    // The look-up takes too long, or is not made.
    fn fail(&self, alloc: Global, host: &str, now: u64) {
        for _ in 0..TRIES {
            if let Some(mut table) = self.table.try_lock() {
                if let Some(entry) = table.entry(alloc, host.as_bytes()) {
                    entry.fail(now, DialFault::LookUpFailed);
                }
                return;
            }
            thread::yield_now();
        }
    }
}

impl LookUps {
    /// A host that is an address.
    pub(crate) fn literal(&self, alloc: Global, host: &str, addr: Addr) -> Option<Arc<FoundAddrs>> {
        if let Some(table) = self.literals.try_lock() {
            if let Some(place) = table.place(number_of(host.as_bytes()), host.as_bytes()) {
                let found = table.entries.get(place)?.found.as_ref()?;
                return Arc::try_clone(found).ok();
            }
        }
        Arc::new(alloc, FoundAddrs::of(alloc, &[addr], &None)?).ok()
    }

    /// It failed: when it did is known to the next dial.
    pub(crate) fn keep_literal(&self, alloc: Global, host: &str, found: Arc<FoundAddrs>) {
        if let Some(mut table) = self.literals.try_lock() {
            if let Some(entry) = table.entry(alloc, host.as_bytes()) {
                entry.found = Some(found);
            }
        }
    }
}

// The text of a file, or nothing.
fn text_of(alloc: Global, file: Option<File>) -> Vec<u8> {
    let mut text = Vec::new(alloc);
    if let Some(mut file) = file {
        let _ = file.read_to_end(&mut text);
    }
    text
}

// The addresses of `localhost` where no file has it.
fn loopbacks(alloc: Global) -> Option<Addrs> {
    let mut addrs = Addrs::new(alloc);
    addrs
        .push(Addr {
            v6: true,
            number: 1,
        })
        .ok()?;
    addrs
        .push(Addr {
            v6: false,
            number: 0x7f00_0001,
        })
        .ok()?;
    Some(addrs)
}

// An address as the system has it in a `sockaddr`: of two bytes for its family, two for a port, and then four, or four and sixteen.
fn addr_in(raw: &RawAddr) -> Option<Addr> {
    let (family, rest) = raw.bytes.split_first_chunk::<2>()?;
    match i32::from(u16::from_ne_bytes(*family)) {
        AF_INET => {
            let bytes = rest.get(2..6)?.first_chunk::<4>()?;
            Some(Addr {
                v6: false,
                number: u32::from_be_bytes(*bytes) as u128,
            })
        }
        AF_INET6 => {
            let bytes = rest.get(6..22)?.first_chunk::<16>()?;
            Some(addr_of(IpAddr::V6(Ipv6Addr::from_bits(u128::from_be_bytes(*bytes)))))
        }
        _ => None,
    }
}

// Why the system finds no address, by its number of the error.
fn fault_of(number: isize) -> DialFault {
    if number == EAI_NONAME as isize || number == EAI_NODATA as isize {
        DialFault::NameNotFound
    } else {
        DialFault::LookUpFailed
    }
}

// What the system says of a name.
fn system_addrs(alloc: Global, name: &[u8]) -> Result<Addrs, DialFault> {
    let mut raw = [RawAddr {
        bytes: [0; 128],
        len: 0,
    }; MOST_ADDRS];
    let answer = os::lookup_host(name, &mut raw);
    let Ok(count) = usize::try_from(answer) else {
        return Err(fault_of(answer));
    };
    match addrs_in(alloc, &raw, count) {
        Some(addrs) => Ok(addrs),
        None => Err(DialFault::LookUpFailed),
    }
}

// The addresses that the system has found: so many of these.
fn addrs_in(alloc: Global, raw: &[RawAddr], count: usize) -> Option<Addrs> {
    let mut addrs = Addrs::new(alloc);
    for raw in raw.get(..count)? {
        addrs.push(addr_in(raw)?).ok()?;
    }
    Some(addrs)
}

// The addresses that a hosts file has for a name, or of `localhost` where no file has it; nothing where the system is to be asked.
fn known_here(alloc: Global, hosts: Option<File>, host: &str) -> Option<Addrs> {
    let text = text_of(alloc, hosts);
    let addrs = hosts_addresses(alloc, host.as_bytes(), text.as_slice()).ok()?;
    if addrs.is_empty() && host == "localhost" {
        return loopbacks(alloc);
    }
    Some(addrs)
}

// The addresses of a name: those of the hosts file, or what the system says of exactly this name.
fn looked_up(alloc: Global, hosts: Option<File>, host: &str) -> Result<Addrs, DialFault> {
    let Some(addrs) = known_here(alloc, hosts, host) else {
        return Err(DialFault::OutOfMemory);
    };
    if !addrs.is_empty() {
        return Ok(addrs);
    }
    match asked(alloc, host) {
        Ok(name) => system_addrs(alloc, name.as_bytes()),
        Err(_) => Err(DialFault::OutOfMemory),
    }
}

// What a look-up's thread does.
fn look(alloc: Global, hosts: Option<File>, look_ups: &LookUps, asked: &LookUp) {
    let found = match str::from_utf8(asked.name.as_bytes()) {
        Ok(name) => looked_up(alloc, hosts, name),
        Err(_) => Err(DialFault::LookUpFailed),
    };
    asked.end(found);
    look_ups.running.fetch_sub(1, Ordering::SeqCst);
}

// Has the system look a name up, in a thread of its own, unless too many such threads are there.
fn ask<R: Files<File = File> + Threads>(
    rt: &R,
    alloc: Global,
    look_ups: &Arc<LookUps>,
    asked: &Arc<LookUp>,
) -> Result<(), DialFault> {
    if look_ups.running.fetch_add(1, Ordering::SeqCst) >= MOST_RUNNING {
        look_ups.running.fetch_sub(1, Ordering::SeqCst);
        return Err(DialFault::LookUpFailed);
    }
    let begun = begin(rt, alloc, look_ups, asked);
    if begun.is_none() {
        look_ups.running.fetch_sub(1, Ordering::SeqCst);
    }
    begun.ok_or(DialFault::NoThread)
}

fn begin<R: Files<File = File> + Threads>(
    rt: &R,
    alloc: Global,
    look_ups: &Arc<LookUps>,
    asked: &Arc<LookUp>,
) -> Option<()> {
    let look_ups = Arc::try_clone(look_ups).ok()?;
    let asked = Arc::try_clone(asked).ok()?;
    let hosts = File::open(rt, "/etc/hosts").ok();
    Builder::new()
        .stack_size(STACK)
        .spawn(rt, move || look(alloc, hosts, &look_ups, &asked))
        .ok()?;
    Some(())
}

/// The addresses of a host, by what is known or by the system. A fault where the look-up fails, takes too long, or where nobody wants
/// it any more.
#[inline(never)]
pub(crate) fn find<R: Files<File = File> + Clock + Threads + Wait>(
    rt: &R,
    alloc: Global,
    look_ups: &Arc<LookUps>,
    host: &str,
    wanting: &Wanting<'_>,
) -> Result<Arc<FoundAddrs>, DialFault> {
    let begun = now(rt);
    for _ in 0..u32::MAX {
        if wanting.is_over() {
            return Err(wanting.fault());
        }
        let time = now(rt);
        if time.saturating_sub(begun) >= PATIENCE {
            look_ups.fail(alloc, host, time);
            return Err(DialFault::LookUpFailed);
        }
        match look_ups.next(alloc, host, wanting.asker(), time) {
            LookUpNext::Found(found) => return Ok(found),
            LookUpNext::Failed(fault) => return Err(fault),
            LookUpNext::Pause(left) => thread::sleep(rt, Duration::from_millis(left.max(1))),
            LookUpNext::Wait(asked) => asked.wait(rt),
            LookUpNext::Ask(asked) => {
                if let Err(fault) = ask(rt, alloc, look_ups, &asked) {
                    asked.end(Err(fault));
                    return Err(fault);
                }
                asked.wait(rt);
            }
        }
    }
    Err(DialFault::Other)
}
