//! Classes of helpers, as `external_acl_type` states them.
ghost use Rattle.std.specs.Prelude.{◌≡◌};
ghost use Rattle.std.specs.Cmp.Lexicographic.{pointwise};
ghost use Rattle.sq_rules.specs.AlikeClasses.{is_alike, same_times, same_processes, same_token};

use sq_base::{Listed, Text, Texts};
use std::marker::Model;

/// A part of a key's format: what stands in its place.
#[derive(Drop, PartialEq, Eq)]
pub enum Token {
    /// `%>a`, `%SRC`: the client's address.
    ClientAddr,
    /// `%>p`, `%SRCPORT`: the client's port.
    ClientPort,
    /// `%>rm`, `%METHOD`: the method.
    Method,
    /// `%>ru`, `%URI`: the target as it was sent.
    Uri,
    /// `%>rs`, `%PROTO`: the scheme.
    Scheme,
    /// `%>rd`, `%DST`: the host in lower case.
    Host,
    /// `%>rP`, `%PORT`: the destination port.
    Port,
    /// `%>rp`, `%PATH`: the path with its query.
    Path,
    /// `%>{Name}`: the values of the fields of this name.
    Header(Text),
    /// `%ACL`: the acl's name.
    AclName,
    /// `%DATA`: the acl's arguments.
    Arguments,
    /// `%%`: the byte `%`.
    Percent,
}

/// A list of tokens.
pub type Tokens = Listed<Token>;

/// A class of helpers: its name, its options, the format of its keys, and the words of its program.
#[derive(Drop)]
pub struct Class {
    pub name: Text,
    /// Seconds for which an OK is fresh.
    pub ttl: u32,
    /// Seconds for which an ERR is fresh.
    pub negative_ttl: u32,
    /// Percentage remaining of the ttl in which a refresh begins without waiting.
    pub grace: u32,
    /// Greatest number of cached replies; 0 keeps none.
    pub cache: u32,
    /// Greatest number of processes.
    pub children_max: u32,
    /// Processes to start when the epoch begins; no more than `children_max` are started.
    pub startup: u32,
    /// Channels of a process; 0 means no channel numbers, and one question at a time.
    pub concurrency: u32,
    /// Questions that may wait beside those for which a process has room.
    pub queue_size: u32,
    pub format: Tokens,
    /// The helper and its arguments.
    pub words: Texts,
}

impl Model for Class {
    ghost use Rattle.sq_rules.specs.Classes.{Class, IsClass};

    ghost Value = { Class };

    ghost view = { λ c. record {
      name = c.name;
      ttl = c.ttl;
      negative_ttl = c.negative_ttl;
      grace = c.grace;
      cache = c.cache;
      children_max = c.children_max;
      startup = c.startup;
      concurrency = c.concurrency;
      queue_size = c.queue_size;
      format = c.format;
      words = c.words;
    } };

    ghost invariant = { λ c. IsClass
        (record {
          name = c.name;
          ttl = c.ttl;
          negative_ttl = c.negative_ttl;
          grace = c.grace;
          cache = c.cache;
          children_max = c.children_max;
          startup = c.startup;
          concurrency = c.concurrency;
          queue_size = c.queue_size;
          format = c.format;
          words = c.words;
        }) };
}

impl Class {
    /// Whether both state the same in each part, the name among them. Cached replies move to such a
    /// class when a configuration is read again. It takes no memory.
    pub fn alike(&self, other: &Class) -> bool
        ensures { result ≡ is_alike self.now other.now }
    {
        self.name == other.name
            && same_times(self, other)
            && same_processes(self, other)
            && same_format(&self.format, &other.format)
            && self.words == other.words
    }
}

// Whether both say the same of cached replies.
fn same_times(class: &Class, other: &Class) -> bool
    ensures { result ≡ same_times class.now other.now }
{
    class.ttl == other.ttl
        && class.negative_ttl == other.negative_ttl
        && class.grace == other.grace
        && class.cache == other.cache
}

// Whether both say the same of processes.
fn same_processes(class: &Class, other: &Class) -> bool
    ensures { result ≡ same_processes class.now other.now }
{
    class.children_max == other.children_max
        && class.startup == other.startup
        && class.concurrency == other.concurrency
        && class.queue_size == other.queue_size
}

// Whether both formats have the same tokens.
fn same_format(format: &Tokens, other: &Tokens) -> bool
    ensures { result ≡ pointwise same_token format.now other.now }
{
    format == other
}

/// A list of classes.
pub type Classes = Listed<Class>;
