//! The configuration as a value, and the definitions of what its rules come to.
//!
//! `Config` holds what a configuration file says, with the invariant that every name is unique, every
//! named place exists and is earlier, groups nest 32 deep at the most, and rules of delay pools and for fields ask no
//! helper. `Facts` are the truth values of the leaf acls that a check looks at. The definitions of `specs/`
//! say which configuration a text states (`ConfText`), when a leaf acl holds (`Leaves`), which facts a check
//! has (`Facts`), what a helper is asked (`Keys`), what terms and rules come to over its answers (`Values`,
//! `Verdicts`) and by which acls (`Walks`).
#![tactic(auto)]

mod acl_changes;
mod acl_table;
mod acl_types;
mod building;
mod class_table;
mod classes;
mod configs;
mod directives;
mod facts;
mod fast_lists;
mod formats;
mod headers;
mod kinds;
mod leaves;
mod limits;
mod lookups;
mod member_faults;
mod names;
mod nesting;
mod notices;
mod outcomes;
mod parts;
mod pools;
mod predefined;
mod reaching;
mod rechecks;
mod sights;
mod values;

pub use acl_table::AclTable;
pub use acl_types::AclType;
pub use class_table::ClassTable;
pub use classes::{Class, Classes, Token, Tokens};
pub use configs::{Acl, Acls, Body, Config, ConfigFields, Lines, Rule, Rules, Term, Terms};
pub use directives::{ClassOption, Directive, LookupOption};
pub use facts::Facts;
pub use fast_lists::{is_pool_class, pairs_of};
pub use formats::with_arguments;
pub use headers::{HeaderRule, HeaderRules, lowered};
pub use kinds::{ConfError, Kind};
pub use leaves::{Find, Finds, Hour, Hours, Leaf, Numbers, PortRange, PortRanges};
pub use limits::{
    ACL_LIMIT, CACHE_LIMIT, CHILDREN_LIMIT, CLASS_LIMIT, DAY_MINUTES, DELAY_LIMIT, GRACE_LIMIT,
    HEADER_LIMIT, INITIAL_LIMIT, MAXCONN_LIMIT, NAME_LIMIT, NESTING_LIMIT, POOL_LIMIT, QUEUE_LIMIT,
    RULE_LIMIT, SECONDS_LIMIT, TEXT_LIMIT, TOKEN_LIMIT,
};
pub use lookups::{
    LookupSizes, has_blank, literal_leaf, literal_name, lookup_class, lookup_name, named_name,
};
pub use member_faults::MemberFault;
pub use notices::{Notice, Notices};
pub use outcomes::{Outcome, Why};
pub use parts::{
    AclPart, AclParts, BodyPart, BuildFault, HeaderPart, HeaderParts, LineParts, Parts, PoolPart,
    PoolParts, RulePart, RuleParts, TermPart, TermParts,
};
pub use pools::{Limit, Limits, Pool, PoolList};
pub use predefined::predefined_acls;
pub use reaching::asks_nobody;
pub use sights::{Peer, Sight};
pub use values::{TermValue, Value};
