//! What a configuration is built from: acls and classes are named by their names.
use crate::classes::{Class, Classes};
use crate::leaves::Leaf;
use crate::notices::Notices;
use crate::pools::Limits;
use sq_base::{Listed, Text, Texts, WantOfMemory};
use thiserror::Error;

/// A term: the name of an acl, and whether `!` stands before it.
#[derive(Drop)]
pub struct TermPart {
    pub acl: Text,
    pub negated: bool,
}

/// A list of terms.
pub type TermParts = Listed<TermPart>;

/// The lines of `all-of`, each with its terms.
pub type LineParts = Listed<TermParts>;

/// What an acl is, where names stand for acls and classes.
#[derive(Drop)]
pub enum BodyPart {
    Leaf(Leaf),
    External { class: Text, arguments: Texts },
    AnyOf(TermParts),
    AllOf(LineParts),
}

/// An acl.
#[derive(Drop)]
pub struct AclPart {
    pub name: Text,
    pub body: BodyPart,
}

/// A list of acls.
pub type AclParts = Listed<AclPart>;

/// A rule.
#[derive(Drop)]
pub struct RulePart {
    pub allow: bool,
    pub terms: TermParts,
}

/// A list of rules.
pub type RuleParts = Listed<RulePart>;

/// A delay pool.
#[derive(Drop)]
pub struct PoolPart {
    pub class: u8,
    pub pairs: Limits,
    pub lists: RuleParts,
}

/// A list of pools.
pub type PoolParts = Listed<PoolPart>;

/// A rule for the fields of a name, of replies or of requests.
#[derive(Drop)]
pub struct HeaderPart {
    pub reply: bool,
    pub name: Text,
    pub rule: RulePart,
}

/// A list of such rules.
pub type HeaderParts = Listed<HeaderPart>;

/// The parts of a configuration, in the order in which they are looked through for a fault.
#[derive(Drop)]
pub struct Parts {
    pub source: Text,
    /// Whether the names of hosts are looked up for acls of type `dst`. The parts have then what a reader of
    /// configurations makes for that: the class `dst lookup` and the acl `dst literal` first, and four acls for each.
    pub dst_lookup: bool,
    pub classes: Classes,
    pub acls: AclParts,
    pub rules: RuleParts,
    pub pools: PoolParts,
    pub initial: u8,
    pub port: u16,
    /// The class of the program that rewrites targets.
    pub rewriter: Option<Class>,
    pub headers: HeaderParts,
    pub notices: Notices,
}

/// Why parts are no configuration.
#[derive(Drop, Debug, PartialEq, Eq, Error)]
pub enum BuildFault {
    /// A class has the name of an earlier class, or an acl that of an earlier acl.
    #[error("{0}: an earlier class, or for an acl an earlier acl, has this name")]
    Duplicate(Text),
    /// No acl, or for a group no earlier acl, has this name.
    #[error("{0}: no acl has this name, or none before the group")]
    UndefinedAcl(Text),
    /// No class has this name.
    #[error("{0}: no class has this name")]
    UndefinedClass(Text),
    /// This acl, which a rule of a pool or for fields names, asks a helper or reaches one that does.
    #[error("{0}: a rule of a delay pool or for fields names this acl, which asks a helper or reaches one that does")]
    SlowInFastList(Text),
    /// The acl of this name nests more than 32 deep.
    #[error("{0}: this acl nests more than 32 deep")]
    TooDeep(Text),
    /// Names are looked up, and the class `dst lookup` or the acl `dst literal` does not stand first, or an acl of type
    /// `dst` does not stand with its look-up. It names none of them, since what lacks may be the class or
    /// `dst literal`; it comes behind the faults of all classes and acls, and before those of rules.
    #[error("names are looked up, and an acl of type dst does not stand with its look-up")]
    NoLookup,
    /// The pool at this place, from 0, has none of the classes 1, 2, 3 and 5, or not as many limits as its class has.
    #[error("the pool at place {0}, from 0, has none of the classes 1, 2, 3 and 5, or not as many limits as that has")]
    PoolIncomplete(u32),
    /// There was no memory.
    #[error("out of memory")]
    WantOfMemory,
}

impl From<WantOfMemory> for BuildFault {
    ghost use Rattle.std.specs.Prelude.{◌≡◌};
    ghost use Rattle.sq_rules.specs.declared.parts.BuildFault.TheVariants as fault;

    ghost from_gives = { λ _ e. e ≡ fault.WantOfMemory };

    fn from(_error: WantOfMemory) -> BuildFault {
        BuildFault::WantOfMemory
    }
}
