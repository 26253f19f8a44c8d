//! The open connections.
ghost use Rattle.std.specs.Prelude.{◌≡◌, ◌==◌, ◌-◌, [], ℕ, true, suc, nat_le, length, is_some, if◌then◌else◌, Some, None, OnOk, OnErr};
ghost use Rattle.sq_base.specs.Addresses.{Address};
ghost use Rattle.sq_machine.specs.Connections.{is_address};
ghost use Rattle.sq_machine.specs.Limits.{conn_limit};
ghost use Rattle.sq_checks.specs.Conns.{check_in, client_in, lowered};
ghost use Rattle.sq_checks.specs.Counts.{tally};

use crate::counts::ConnCounts;
use crate::tables::Table;
use sq_base::{Addr, CheckNo, ConnNo, WantOfMemory};
use sq_machine::CONN_LIMIT;
use sq_rules::Peer;
use std::alloc::Global;
use std::marker::Model;

/// An open connection: its client, and its open check, if it has one.
#[derive(Clone, Copy)]
pub struct Link {
    pub peer: Peer,
    pub check: Option<CheckNo>,
}

/// The open connections by number, and how many each client address has. A contract sees the client and the
/// open check of each connection, how many are open, and the count of each address.
pub struct Conns {
    links: Table<Link>,
    counts: ConnCounts,
}

// Written out, so that the drops of its parts are proved here alone, and not in each crate that lets connections go.
impl Drop for Conns {
    fn drop(self) {
        let Conns {
            links: _,
            counts: _,
        } = self;
    }
}

impl Model for Conns {
    ghost use Rattle.sq_checks.specs.Conns.{OpenConns};

    ghost Value = { OpenConns };

    ghost view = { λ c. record { links = c.links; counts = c.counts } };
}

impl Conns {
    /// No connection. It takes no memory.
    pub fn new(alloc: Global) -> Conns
        ensures links { result.links ≡ [] }
        ensures counts { (a : Address) → tally result.counts a ≡ 0 }
    {
        Conns {
            links: Table::new(alloc),
            counts: ConnCounts::new(alloc),
        }
    }

    /// How many connections are open.
    pub fn len(&self) -> usize
        ensures { result ≡ length self.now.links }
    {
        self.links.len()
    }

    /// Whether no connection is open.
    pub fn is_empty(&self) -> bool
        ensures { result ≡ (length self.now.links == 0) }
    {
        self.links.len() == 0
    }

    /// Whether as many are open as may be.
    pub fn is_full(&self) -> bool
        ensures { result ≡ nat_le conn_limit (length self.now.links) }
    {
        self.links.len() >= CONN_LIMIT as usize
    }

    /// The client of a connection, where it is open.
    pub fn peer(&self, conn: ConnNo) -> Option<Peer>
        ensures { result ≡ client_in self.now conn }
    {
        match self.links.get(conn.0 as u128) {
            Some(link) => Some(link.peer),
            None => None,
        }
    }

    /// The open check of a connection, if it has one.
    pub fn check(&self, conn: ConnNo) -> Option<CheckNo>
        ensures { result ≡ check_in self.now conn }
    {
        match self.links.get(conn.0 as u128) {
            Some(link) => link.check,
            None => None,
        }
    }

    /// How many connections of a client address are open.
    pub fn of(&self, addr: Addr) -> u32
        ensures { result ≡ tally self.now.counts addr }
    {
        self.counts.count(addr)
    }

    /// Opens a connection that is not open. It has no check.
    pub fn open(&mut self, conn: ConnNo, addr: Addr, port: u16) -> Result<(), WantOfMemory>
        requires { client_in self.old conn ≡ None }
        ensures clients { OnOk result
            ((c : ℕ) → client_in self.new c
            ≡ (if conn == c then Some (record { addr = addr; port = port })
            else client_in self.old c)) }
        ensures checks { OnOk result ((c : ℕ) → check_in self.new c ≡ check_in self.old c) }
        ensures len { OnOk result (length self.new.links ≡ suc (length self.old.links)) }
        ensures counts { OnOk result
            ((a : Address) → tally self.new.counts a
            ≡ (if is_address a addr then suc (tally self.old.counts a)
            else tally self.old.counts a)) }
        ensures err { OnErr result (self.new ≡ self.old) }
    {
        let link = Link {
            peer: Peer { addr, port },
            check: None,
        };
        self.links.put(conn.0 as u128, link)?;
        match self.counts.raise(addr) {
            Ok(()) => Ok(()),
            Err(WantOfMemory) => {
                self.links.remove(conn.0 as u128);
                Err(WantOfMemory)
            }
        }
    }

    /// Closes a connection, and tells its client; none where it is not open. It takes no memory.
    pub fn close(&mut self, conn: ConnNo) -> Option<Peer>
        ensures client { result ≡ client_in self.old conn }
        ensures clients { (c : ℕ)
            → client_in self.new c ≡ (if conn == c then None else client_in self.old c) }
        ensures checks { (c : ℕ)
            → check_in self.new c ≡ (if conn == c then None else check_in self.old c) }
        ensures len { length self.new.links
            ≡ (if is_some result then length self.old.links - 1 else length self.old.links) }
        ensures counts { (a : Address)
            → tally self.new.counts a ≡ lowered result a (tally self.old.counts a) }
    {
        let Some(link) = self.links.get(conn.0 as u128) else {
            return None;
        };
        let peer = link.peer;
        let addr = peer.addr;
        self.links.remove(conn.0 as u128);
        self.counts.lower(addr);
        Some(peer)
    }

    /// Says which check of an open connection is open, if one is. It takes no memory.
    pub fn set_check(&mut self, conn: ConnNo, check: Option<CheckNo>)
        requires { is_some (client_in self.old conn) ≡ true }
        ensures clients { (c : ℕ) → client_in self.new c ≡ client_in self.old c }
        ensures checks { (c : ℕ)
            → check_in self.new c ≡ (if conn == c then check else check_in self.old c) }
        ensures len { length self.new.links ≡ length self.old.links }
        ensures counts { self.new.counts ≡ self.old.counts }
    {
        match self.links.get(conn.0 as u128) {
            Some(link) => self.links.change(
                conn.0 as u128,
                Link {
                    peer: link.peer,
                    check,
                },
            ),
            None => unreachable!(),
        }
    }
}
