//! The types of acls.
ghost use Rattle.std.specs.Prelude.{◌≡◌};
ghost use Rattle.sq_rules.specs.Drafts.{type_of_body, type_of_leaf};

use crate::configs::Body;
use crate::leaves::Leaf;

/// The type of an acl, as its line names it.
#[derive(Clone, Copy, PartialEq, Eq)]
pub enum AclType {
    Src,
    Dst,
    DstDomain,
    Port,
    Method,
    Proto,
    Time,
    UrlRegex,
    MaxConn,
    External,
    AnyOf,
    AllOf,
}

impl Leaf {
    /// The type of its values.
    pub fn acl_type(&self) -> AclType
        ensures { result ≡ type_of_leaf self.now }
    {
        match self {
            Leaf::Src(_) => AclType::Src,
            Leaf::Dst(_) => AclType::Dst,
            Leaf::DstDomain(_) => AclType::DstDomain,
            Leaf::Port(_) => AclType::Port,
            Leaf::Method(_) => AclType::Method,
            Leaf::Proto(_) => AclType::Proto,
            Leaf::Time(_) => AclType::Time,
            Leaf::UrlRegex(_) => AclType::UrlRegex,
            Leaf::MaxConn(_) => AclType::MaxConn,
        }
    }
}

impl Body {
    /// The type of an acl with it.
    pub fn acl_type(&self) -> AclType
        ensures { result ≡ type_of_body self.now }
    {
        match self {
            Body::Leaf(leaf) => leaf.acl_type(),
            Body::External {
                class: _,
                arguments: _,
            } => AclType::External,
            Body::AnyOf(_) => AclType::AnyOf,
            Body::AllOf(_) => AclType::AllOf,
        }
    }
}
