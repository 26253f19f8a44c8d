//! Why there is no plan of a body, and no head of a reply.
use sq_base::WantOfMemory;
use thiserror::Error;

/// Why there is no plan of a message's body. The first of these that holds is answered.
#[derive(Clone, Copy, Debug, Error)]
pub enum BadBody {
    #[error("both Transfer-Encoding and Content-Length stand")]
    BothLengths,
    #[error("the body's length can't be told")]
    BadLength,
    #[error("the transfer coding is not chunked alone")]
    BadCoding,
}

/// Why there is no head of a reply. Want of memory may come at any time.
#[derive(Clone, Copy, Debug, Error)]
pub enum ReplyHeadFault {
    #[error("the head is no head of a reply")]
    BadHead,
    #[error("out of memory")]
    WantOfMemory,
}

impl From<WantOfMemory> for ReplyHeadFault {
    ghost use Rattle.std.specs.Prelude.{◌≡◌};
    ghost use Rattle.sq_message.specs.declared.faults.ReplyHeadFault.TheVariants as fault;

    ghost from_gives = { λ _ e. e ≡ fault.WantOfMemory };

    fn from(_error: WantOfMemory) -> ReplyHeadFault {
        ReplyHeadFault::WantOfMemory
    }
}
