//! Methods as `http` has them.
ghost use Rattle.std.specs.Prelude.{◌≡◌, Some, None, IfOk, if◌then◌else◌};
ghost use Rattle.httparse.specs.Grammar.{is_token};

use http::Method;
use http::method::MethodError;
use sq_base::WantOfMemory;
use std::alloc::Global;

/// The method that these bytes are, if they are a token. A method of at most 15 bytes takes no memory.
pub fn read_method(alloc: Global, bytes: &[u8]) -> Result<Option<Method>, WantOfMemory>
    ensures { IfOk result (λ m. m ≡ (if is_token bytes.now then Some bytes.now else None)) }
{
    match Method::from_bytes(alloc, bytes) {
        Ok(method) => Ok(Some(method)),
        Err(MethodError::Invalid) => Ok(None),
        Err(MethodError::OutOfMemory) => Err(WantOfMemory),
    }
}
