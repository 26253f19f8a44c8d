//! Each call of delay pools, made behind their lock.
ghost use Rattle.std.specs.Prelude.{◌≡◌};
ghost use Rattle.sq_pools.specs.Basins.{has_pool, has_tag_pool};

use crate::desk::desks::append;
use crate::desk::locked::{Table, check};
use crate::desk::rewriting::number;
use sq_base::{Addr, EpochNo, Moment, Text, number_of};
use sq_pools::{Bank, Seat, TagSeat, renew, renew_tags};
use sq_rules::Config;
use sq_turns::Hub;
use std::alloc::Global;
use std::process::Abort;
use std::sync::ledger::Ledger;
use std::sync::{Arc, Mutex, Wait};

/// The moments at which a clock is looked at, the calls, and what they answer: the number of a seat, or how many of 500 bytes it is
/// granted. A seat is chosen in a pool of an epoch, for the client or another one, or for a tag where the pool has buckets by tags;
/// bytes are granted on the so-manieth of those that are held, and the last of them is given up. A rest ends where the buckets gain of
/// the seat that was granted nothing last.
///
/// The first epoch began at 0 s, the second at 3.3 s. The pools at 0 and 2 gain 100 bytes in each second of their epoch, and those at 1
/// and 3 gain 10, where a tag's bucket does so from its first seat on. That at 4 holds 150 bytes for all, and 100 for each client.
/// Who was granted nothing waits. From the next second on others get even parts with it, three seats of one bucket 4, 3 and 3 of 10;
/// unless it waits at a bucket of its own, as the second seat of the client does at 9.17 s: then the other client gets its 100 at
/// 10.1 s. Who gives its seat up waits no more. A seat that has had its part while another waits pauses in its call until the
/// buckets gain, as the first of gold does from 13.302 s on, and then gets its part of the next second. The last call is of one
/// whose clock stands: after so many pauses it gets what there is.
pub static SEATS: &str = "2000 choose 1 0 - => 1
2100 choose 1 2 iron => 1
2200 choose 1 4 - => 2
2300 choose 1 4 - => 3
2400 choose 1 4 other => 4
- renew => -
9000 choose 2 1 - => 5
9100 grant 1 => 500
9150 grant 2 => 500
9160 grant 3 => 100
9170 grant 4 => 0
9180 grant 5 => 50
9200 grant 6 => 50
9290 grant 6 => 0
9295,9299,9300 pause => -
9301 grant 6 => 10
9302 choose 2 1 - => 6
9303 choose 2 1 - => 7
9304 grant 7 => 0
9305 grant 8 => 0
10100 grant 5 => 100
10301 grant 6 => 4
10302 grant 7 => 3
10303 grant 8 => 3
10304 grant 7 => 0
10305 grant 8 => 0
- leave => -
11301 grant 6 => 5
11302 grant 7 => 5
11400 choose 2 3 gold => 2
12000 grant 8 => 0
12200,12299,12300 pause => -
12301 grant 8 => 10
12302 choose 2 3 gold => 3
12303 grant 9 => 0
13301 grant 8 => 5
13302,14299,14300,14301 grant 8 => 8
- leave => -
14302 grant 8 => 7
14303 choose 2 3 gold => 4
14304 grant 9 => 0
15301 grant 8 => 5
15302 grant 8 => 5
";

/// A client.
const CLIENT: Addr = Addr {
    v6: false,
    number: 0x0a00_0001,
};

/// Another client.
const OTHER: Addr = Addr {
    v6: false,
    number: 0x0a00_0002,
};

/// Puts the moments of the calls behind others.
pub fn put_moments(rt: &impl Abort, moments: &mut Vec<Moment>) {
    for row in SEATS.lines() {
        let (words, _) = row.split_once(' ').expect(rt, "a call");
        for word in words.split(',') {
            if word != "-" {
                let now = number_of(word.as_bytes(), 100_000).expect(rt, "a moment");
                moments.push(Moment(now)).expect(rt, "memory");
            }
        }
    }
}

// Whether the configuration has this pool, it takes the client, and has buckets by addresses.
fn takes(config: &Config, pool: u32, addr: Addr) -> bool
    ensures { result ≡ has_pool config.now pool addr }
{
    match config.pools().get(pool as usize) {
        Some(pool) => !(addr.v6 && pool.class >= 2 && pool.class <= 3) && pool.class != 5,
        None => false,
    }
}

// Whether the configuration has this pool, and it has buckets by tags.
fn is_tagged(config: &Config, pool: u32) -> bool
    ensures { result ≡ has_tag_pool config.now pool }
{
    match config.pools().get(pool as usize) {
        Some(pool) => pool.class == 5,
        None => false,
    }
}

/// A seat, of a host or of a tag.
#[derive(Drop)]
enum Place {
    Host(Seat),
    Tagged(TagSeat),
}

impl Place {
    fn number(&self) -> u64 {
        match self {
            Place::Host(seat) => seat.number().0,
            Place::Tagged(seat) => seat.number().0,
        }
    }
}

// Gives a seat of a client, or of the tag.
fn give_seat<H: Hub>(
    rt: &impl Abort,
    alloc: Global,
    config: &Arc<Config>,
    hub: &mut H,
    words: &str,
) -> Place {
    let (epoch, words) = words.split_once(' ').expect(rt, "an epoch");
    let (pool, tag) = words.split_once(' ').expect(rt, "a pool");
    let epoch = EpochNo(number(rt, epoch));
    let pool = number(rt, pool) as u32;
    if is_tagged(config, pool) {
        let tag = Text::from_slice(alloc, tag.as_bytes()).expect(rt, "memory");
        let seat = hub.choose_tag(alloc, epoch, config, pool, &tag);
        return Place::Tagged(seat.expect(rt, "a seat"));
    }
    let addr = if tag == "other" { OTHER } else { CLIENT };
    assert!(rt; takes(config, pool, addr), "no such pool");
    let seat = hub.choose(alloc, epoch, config, pool, addr);
    Place::Host(seat.expect(rt, "a seat"))
}

// Grants bytes on a seat.
fn give_bytes<H: Hub>(hub: &mut H, place: &Place) -> u64 {
    match place {
        Place::Host(seat) => hub.grant(seat, 500),
        Place::Tagged(seat) => hub.grant_tag(seat, 500),
    }
}

// Gives a seat up.
fn take_seat<H: Hub>(hub: &mut H, place: Place) {
    match place {
        Place::Host(seat) => hub.leave(seat),
        Place::Tagged(seat) => hub.leave_tag(seat),
    }
}

// Makes a call on the seats that are held: what it answers, if anything.
fn answer<H: Hub>(
    rt: &impl Abort,
    alloc: Global,
    config: &Arc<Config>,
    hub: &mut H,
    held: &mut Vec<Place>,
    call: &str,
) -> Option<u64> {
    match call.split_once(' ') {
        Some(("choose", words)) => {
            let place = give_seat(rt, alloc, config, hub, words);
            let given = place.number();
            held.push(place).expect(rt, "memory");
            Some(given)
        }
        Some((_, place)) => {
            let place = (number(rt, place) as usize).wrapping_sub(1);
            Some(give_bytes(hub, held.get(place).expect(rt, "a seat")))
        }
        None => {
            match call {
                "leave" => take_seat(hub, held.pop().expect(rt, "a seat")),
                _ => hub.pause(),
            }
            None
        }
    }
}

// The second epoch of the pools begins, as the control has it.
fn begin_epoch<R: Wait + Abort, G: Ledger>(
    rt: &R,
    alloc: Global,
    config: &Arc<Config>,
    bank: &Mutex<Bank<G>>,
) {
    renew(rt, alloc, bank, EpochNo(2), config, Moment(3300)).expect(rt, "memory");
    renew_tags(rt, alloc, bank, EpochNo(2), config, Moment(3300)).expect(rt, "memory");
}

/// Makes the calls, and puts them down, each with what it answers.
pub fn run_seats<R: Wait + Abort, G: Ledger, H: Hub>(
    rt: &R,
    alloc: Global,
    config: &Arc<Config>,
    bank: &Mutex<Bank<G>>,
    hub: &mut H,
    told: &mut String,
) {
    let mut held = Vec::new(alloc);
    for row in SEATS.lines() {
        let (line, _wanted) = row.split_once(" => ").expect(rt, "an answer");
        let (_, call) = line.split_once(' ').expect(rt, "a call");
        append(rt, told, line);
        append(rt, told, " => ");
        let gave = if call == "renew" {
            begin_epoch(rt, alloc, config, bank);
            None
        } else {
            answer(rt, alloc, config, hub, &mut held, call)
        };
        match gave {
            Some(number) => write!(told, "{number}").expect(rt, "memory"),
            None => append(rt, told, "-"),
        }
        append(rt, told, "\n");
    }
}

#[test]
fn each_call_behind_the_lock_is_that_of_the_pools(rt: HostRuntime) {
    check(&rt, rt.alloc(), Table::Pools);
}
