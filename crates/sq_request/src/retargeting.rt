//! A request with another target.
ghost use Rattle.std.specs.Prelude.{◌≡◌, IfOk};
ghost use Rattle.sq_request.specs.Heads.{retargeted};

use crate::building::build;
use crate::faults::BadRequest;
use sq_base::{Copying, Request, WantOfMemory};
use std::alloc::Global;

/// The request with this target in place of its own and all else kept, where the target has the form that
/// its method takes.
pub fn retarget(
    alloc: Global,
    request: &Request,
    target: &[u8],
) -> Result<Option<Request>, WantOfMemory>
    ensures { IfOk result (λ r. r ≡ retargeted request.now target.now) }
{
    let fields = request.fields.copy(alloc)?;
    match build(
        alloc,
        request.method.as_bytes(),
        target,
        request.minor,
        fields,
    ) {
        Ok(request) => Ok(Some(request)),
        Err(BadRequest::WantOfMemory) => Err(WantOfMemory),
        Err(_) => Ok(None),
    }
}
