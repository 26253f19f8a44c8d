//! Tests of the names of fields: which lines of a head go out.
ghost use Rattle.std.specs.Prelude.{◌≡◌, ℕ, List, Bool, ⊤};
ghost use Rattle.sq_message.specs.FieldNames.{always_there, each_name, goes_out, is_one_of};

use crate::names::is_named;
use http_header::{CONNECTION, CONTENT_LENGTH, HOST, TRANSFER_ENCODING};

/// A test of names of fields.
pub trait NameTest {
    ghost IsReady: { Self → Type 0 };

    ghost passes: { Self → List ℕ → Bool };

    /// Whether the name passes.
    fn passes(&self, name: &[u8]) -> bool
        requires { IsReady self.now }
        ensures { result ≡ passes self.now name.now };
}

/// The test that each name passes.
#[derive(Clone, Copy)]
pub struct EachName;

impl NameTest for EachName {
    ghost IsReady = { λ _. ⊤ };

    ghost passes = { λ _. each_name };

    fn passes(&self, _name: &[u8]) -> bool {
        true
    }
}

fn is_always_there(name: &[u8]) -> bool
    ensures { result ≡ is_one_of always_there name.now }
{
    is_named(&HOST, name)
        || is_named(&CONTENT_LENGTH, name)
        || is_named(&TRANSFER_ENCODING, name)
        || is_named(&CONNECTION, name)
}

/// Whether a line of this name goes out.
pub(crate) fn goes_out<T: NameTest>(test: &T, name: &[u8]) -> bool
    requires { T.IsReady test.now }
    ensures { result ≡ goes_out (T.passes test.now) name.now }
{
    test.passes(name) || is_always_there(name)
}
