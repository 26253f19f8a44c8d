//! Why there is no request.
use sq_base::WantOfMemory;
use thiserror::Error;

/// Why there is no request. The first of these that holds is answered; want of memory may come at any
/// time.
#[derive(Clone, Copy, PartialEq, Eq, Debug, Error)]
pub enum BadRequest {
    #[error("the head is no head of a request")]
    BadHead,
    #[error("the head has more than 128 fields")]
    TooManyFields,
    #[error("the target has not the form that the method takes")]
    BadTarget,
    #[error("out of memory")]
    WantOfMemory,
}

impl From<WantOfMemory> for BadRequest {
    ghost use Rattle.std.specs.Prelude.{◌≡◌};
    ghost use Rattle.sq_request.specs.declared.faults.BadRequest.TheVariants as fault;

    ghost from_gives = { λ _ e. e ≡ fault.WantOfMemory };

    fn from(_error: WantOfMemory) -> BadRequest {
        BadRequest::WantOfMemory
    }
}
