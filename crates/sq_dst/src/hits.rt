//! What a match of an acl of type `dst` rests on.
ghost use Rattle.std.specs.Prelude.{IfSome};
ghost use Rattle.sq_base.specs.Addresses.{IsAddress};
ghost use Rattle.sq_dst.specs.LookupHits.{AreDstHits};

use sq_base::Addr;
use sq_checks::Record;

// The address, if there is one, has the bits of its kind. It changes nothing.
fn address_fits(literal: &Option<Addr>)
    ensures { IfSome literal.now IsAddress }
{
    if let Some(address) = literal {
        let _kind = address.v6;
    }
}

/// What holds of every record: an acl of type `dst` matched only where the host is an address that lies in its values or, where
/// names are looked up, where the host is a name and there is an answer `OK` for that host and that acl. It changes nothing, and
/// its contract says it to a proof.
pub fn dst_hits(record: &Record)
    ensures { AreDstHits record.now.config record.now.sight record.now.answers }
{
    record.config().facts();
    address_fits(&record.sight().request.literal);
}
