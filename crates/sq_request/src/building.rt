//! A request from its parts.
ghost use Rattle.std.specs.Prelude.{◌≡◌, true, Some, IfOk, IfErr};
ghost use Rattle.std.specs.Str.{str_to_ascii_lowercase};
ghost use Rattle.sq_base.specs.Requests.{have_plain_names};
ghost use Rattle.sq_request.specs.Heads.{request_with};
ghost use Rattle.sq_request.specs.Refusals.{RefusesTarget};

use crate::faults::BadRequest;
use crate::targets::{TargetParts, read_target};
use sq_base::{Fields, Request, Text, WantOfMemory};
use std::alloc::Global;

/// The request of these parts, where the target has the form that the method takes.
pub fn build(
    alloc: Global,
    method: &[u8],
    target: &[u8],
    minor: u8,
    fields: Fields,
) -> Result<Request, BadRequest>
    requires { have_plain_names fields ≡ true }
    ensures built { IfOk result (λ r. request_with method.now target.now minor fields ≡ Some r) }
    ensures refused { IfErr result (RefusesTarget method.now target.now minor fields) }
{
    let Some(parts) = read_target(method, target) else {
        return Err(BadRequest::BadTarget);
    };
    let scheme = lowered(alloc, parts.scheme)?;
    let host = lowered(alloc, parts.host)?;
    let path = Text::from_slice(alloc, parts.path)?;
    let method = Text::from_slice(alloc, method)?;
    let target = Text::from_slice(alloc, target)?;
    Ok(Request {
        method,
        target,
        scheme,
        host,
        literal: parts.literal,
        port: parts.port,
        path,
        minor,
        fields,
    })
}

fn lowered(alloc: Global, bytes: &[u8]) -> Result<Text, WantOfMemory>
    ensures { IfOk result (λ t. t ≡ str_to_ascii_lowercase bytes.now) }
{
    let bytes = bytes.to_ascii_lowercase(alloc)?;
    Ok(Text::from_vec(bytes))
}
