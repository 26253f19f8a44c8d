//! Rules for the fields of heads.
ghost use Rattle.std.specs.Prelude.{◌≡◌, ◌++◌, ◌∷◌, [], true, length, nat_lt, OnOk, OnErr};
ghost use Rattle.sq_rules.specs.Configurations.{is_header, is_lower};
ghost use Rattle.sq_rules.specs.Limits.{header_limit};

use crate::builder::Builder;
use sq_base::WantOfMemory;
use sq_rules::{HEADER_LIMIT, HeaderRule};

impl Builder {
    /// Whether one rule more for fields may stand.
    pub fn has_room_for_header(&self) -> bool
        ensures { result ≡ nat_lt (length self.now.headers) header_limit }
    {
        self.headers.len() < HEADER_LIMIT
    }

    /// One rule more for fields, whose name is in lower case, and whose terms name acls that stand and are not slow.
    pub fn push_header(&mut self, header: HeaderRule) -> Result<(), WantOfMemory>
        requires room { nat_lt (length self.old.headers) header_limit ≡ true }
        requires fast { is_header self.old.acls header ≡ true }
        requires lower { is_lower header ≡ true }
        ensures ok { OnOk result
            (self.new ≡ record self.old { headers = self.old.headers ++ header ∷ [] }) }
        ensures err { OnErr result (self.new ≡ self.old) }
    {
        self.headers.push(header)
    }
}
