//! Bytes that are granted before they are written.
ghost use Rattle.std.specs.Prelude.{◌≡◌, ◌≤◌, OnOk, IsErrOf};
ghost use Rattle.sq_forward.specs.Meters.{piece_limit, dry_limit, PaysAll, PaysPart, metered};
ghost use Rattle.sq_outside.specs.Causes.{Rose};

use crate::meter::Meter;
use sq_outside::{Failed, Sink, write_all};

// At most this many bytes are wanted at a time.
const PIECE: usize = 16_384;

// So many pauses since a grant gave some, each behind one that found a bucket empty, end it.
const DRY_LIMIT: u32 = 3_600;

/// Why bytes were not written.
#[derive(Clone, Copy)]
pub(crate) enum Unpaid {
    /// The sink failed.
    Failed,
    /// For too long each grant found a bucket empty.
    Starved,
}

/// Writes the bytes: on a seat as they are granted, and else as they are, for which no grant is needed. At a failure of
/// the sink one grant may be written in part.
pub(crate) fn pay<M: Meter, O: Sink>(meter: &mut M, to: &mut O, bytes: &[u8]) -> Result<(), Unpaid>
    requires dry { M.dry meter.old ≡ 0 }
    ensures ok { OnOk result
        (PaysAll bytes.now (metered (M.seated meter.old) (O.contents to.old) (O.contents to.new)
        (M.granted meter.old) (M.granted meter.new))) }
    ensures failed { IsErrOf result Unpaid.Failed
        → PaysPart bytes.now (metered (M.seated meter.old) (O.contents to.old) (O.contents to.new)
        (M.granted meter.old) (M.granted meter.new)) piece_limit }
    ensures starved { IsErrOf result Unpaid.Starved
        → PaysPart bytes.now (metered (M.seated meter.old) (O.contents to.old) (O.contents to.new)
        (M.granted meter.old) (M.granted meter.new)) 0 }
    ensures dry_at_ok { OnOk result (M.dry meter.new ≡ 0) }
    ensures dry_at_failed { IsErrOf result Unpaid.Failed → M.dry meter.new ≡ 0 }
    ensures dry_at_starved { IsErrOf result Unpaid.Starved → M.dry meter.new ≡ dry_limit }
    ensures seated { M.seated meter.new ≡ M.seated meter.old }
    ensures besides { M.besides meter.new ≡ M.besides meter.old }
    ensures later { O.faults to.old ≤ O.faults to.new }
    ensures cause { IsErrOf result Unpaid.Failed → Rose (O.faults to.old) (O.faults to.new) }
{
    if meter.is_seated() {
        return pay_by_grants(meter, to, bytes);
    }
    match write_all(to, bytes) {
        Ok(()) => Ok(()),
        Err(Failed) => Err(Unpaid::Failed),
    }
}

// Writes the bytes as they are granted, a grant at a time. At a failure of the sink one grant may be written in part.
fn pay_by_grants<M: Meter, O: Sink>(meter: &mut M, to: &mut O, bytes: &[u8]) -> Result<(), Unpaid>
    requires dry { M.dry meter.old ≡ 0 }
    ensures ok { OnOk result
        (PaysAll bytes.now (metered (M.seated meter.old) (O.contents to.old) (O.contents to.new)
        (M.granted meter.old) (M.granted meter.new))) }
    ensures failed { IsErrOf result Unpaid.Failed
        → PaysPart bytes.now (metered (M.seated meter.old) (O.contents to.old) (O.contents to.new)
        (M.granted meter.old) (M.granted meter.new)) piece_limit }
    ensures starved { IsErrOf result Unpaid.Starved
        → PaysPart bytes.now (metered (M.seated meter.old) (O.contents to.old) (O.contents to.new)
        (M.granted meter.old) (M.granted meter.new)) 0 }
    ensures dry_at_ok { OnOk result (M.dry meter.new ≡ 0) }
    ensures dry_at_failed { IsErrOf result Unpaid.Failed → M.dry meter.new ≡ 0 }
    ensures dry_at_starved { IsErrOf result Unpaid.Starved → M.dry meter.new ≡ dry_limit }
    ensures seated { M.seated meter.new ≡ M.seated meter.old }
    ensures besides { M.besides meter.new ≡ M.besides meter.old }
    ensures later { O.faults to.old ≤ O.faults to.new }
    ensures cause { IsErrOf result Unpaid.Failed → Rose (O.faults to.old) (O.faults to.new) }
{
    let mut at = 0;
    let mut dry = 0;
    while at < bytes.len() {
        let (_, rest) = bytes.split_at(at);
        let wanted = rest.len().min(PIECE);
        let count = meter.grant(wanted as u64) as usize;
        if count == 0 {
            meter.pause();
            dry += 1;
            if dry == DRY_LIMIT {
                return Err(Unpaid::Starved);
            }
        } else {
            dry = 0;
            let (piece, _) = rest.split_at(count);
            match write_all(to, piece) {
                Ok(()) => at += count,
                Err(Failed) => return Err(Unpaid::Failed),
            }
        }
    }
    Ok(())
}
