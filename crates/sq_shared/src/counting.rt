//! Refusals, counted in a book and in a share of it.
ghost use Rattle.std.specs.Prelude.{◌≡◌, ◌<◌};
ghost use Rattle.sq_shared.specs.Books.{SharesLine, SharesMade, SharesRefusal};

use sq_calls::DeskFault;
use sq_channel::Got;
use std::sync::ledger::{Book, Ledger, Share};

/// Counts a call that was refused or could not be noted.
pub fn count<N: Ledger, T>(
    refusals: &mut Book<N>,
    share: &mut Share<N>,
    gave: &Result<T, DeskFault>,
)
    requires { 0 < share.old.parts }
    ensures book { SharesRefusal refusals.old.total refusals.new.total gave.now }
    ensures share { SharesRefusal share.old.amount share.new.amount gave.now }
    ensures parts { share.new.parts ≡ share.old.parts }
{
    match gave {
        Ok(_) | Err(DeskFault::WantOfMemory) => {}
        Err(_) => refusals.add(share, 1),
    }
}

/// Counts a line that was bad or stray, refused, or could not be noted.
pub fn count_line<N: Ledger>(
    refusals: &mut Book<N>,
    share: &mut Share<N>,
    gave: &Result<Got, DeskFault>,
)
    requires { 0 < share.old.parts }
    ensures book { SharesLine refusals.old.total refusals.new.total gave.now }
    ensures share { SharesLine share.old.amount share.new.amount gave.now }
    ensures parts { share.new.parts ≡ share.old.parts }
{
    match gave {
        Ok(Got::Reply(_, _)) | Err(DeskFault::WantOfMemory) => {}
        Ok(Got::Bad) | Ok(Got::Stray) | Err(_) => refusals.add(share, 1),
    }
}

/// Counts a request, or a reconfiguration, that was made.
pub fn count_made<L: Ledger, T>(
    book: &mut Book<L>,
    share: &mut Share<L>,
    gave: &Result<T, DeskFault>,
)
    requires { 0 < share.old.parts }
    ensures book { SharesMade book.old.total book.new.total gave.now }
    ensures share { SharesMade share.old.amount share.new.amount gave.now }
    ensures parts { share.new.parts ≡ share.old.parts }
{
    if gave.is_ok() {
        book.add(share, 1);
    }
}
