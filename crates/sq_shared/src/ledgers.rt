//! The four ledgers of a server, as one type.
ghost use Rattle.sq_shared.specs.Ledgers.{LedgerKey};

use std::marker::{Brand, PhantomData};
use std::sync::ledger::Ledger;

/// Which ledgers the books of a server are of, and into how many parts their shares are cut.
pub trait Ledgers {
    /// That of its requests.
    ghost asks: { LedgerKey };

    /// That of its reconfigurations.
    ghost makes: { LedgerKey };

    /// That of its refusals.
    ghost refusals: { LedgerKey };

    /// That of what its delay pools granted.
    ghost grants: { LedgerKey };
}

impl Ledgers for Brand {
    ghost asks = { record { name = 0; parts = 0 } };

    ghost makes = { record { name = 0; parts = 0 } };

    ghost refusals = { record { name = 0; parts = 0 } };

    ghost grants = { record { name = 0; parts = 0 } };
}

/// The ledger of requests.
pub struct Asks<B: Ledgers> {
    of: PhantomData<B>,
}

impl<B: Ledgers> Ledger for Asks<B> {
    ghost name = { B.asks.name };

    ghost parts = { B.asks.parts };
}

/// The ledger of reconfigurations.
pub struct Makes<B: Ledgers> {
    of: PhantomData<B>,
}

impl<B: Ledgers> Ledger for Makes<B> {
    ghost name = { B.makes.name };

    ghost parts = { B.makes.parts };
}

/// The ledger of refusals.
pub struct Refusals<B: Ledgers> {
    of: PhantomData<B>,
}

impl<B: Ledgers> Ledger for Refusals<B> {
    ghost name = { B.refusals.name };

    ghost parts = { B.refusals.parts };
}

/// The ledger of grants.
pub struct Grants<B: Ledgers> {
    of: PhantomData<B>,
}

impl<B: Ledgers> Ledger for Grants<B> {
    ghost name = { B.grants.name };

    ghost parts = { B.grants.parts };
}
