//! Leaf acls: lists whose values are alternatives.
use sq_base::{Listed, Ranges, Text, Texts};
use std::marker::Model;

/// Ports from the first to the last, both included.
#[derive(Clone, Copy, PartialEq, Eq)]
pub struct PortRange {
    pub first: u16,
    pub last: u16,
}

/// A list of ranges of ports.
pub type PortRanges = Listed<PortRange>;

/// A line of `time`: weekdays, of which bit i of `days` stands for day i with Sunday as 0, and the
/// minutes of a day from the first to the last, both included.
#[derive(Clone, Copy, PartialEq, Eq)]
pub struct Hour {
    pub days: u8,
    pub first: u32,
    pub last: u32,
}

impl Model for Hour {
    ghost use Rattle.sq_rules.specs.Times.{Hour, IsHour};

    ghost Value = { Hour };

    ghost view = { λ h. record { days = h.days; first = h.first; last = h.last } };

    ghost invariant = { λ h. IsHour (record { days = h.days; first = h.first; last = h.last }) };

    ghost inverse = { λ p. record { days = p.days; first = p.first; last = p.last } };
}

/// A list of lines of `time`.
pub type Hours = Listed<Hour>;

/// A pattern of `url_regex`; `fold` is true where case is off.
#[derive(PartialEq, Eq)]
pub struct Find {
    pub pattern: Text,
    pub fold: bool,
}

impl Drop for Find {
    fn drop(self) {
        let Find {
            pattern: _,
            fold: _,
        } = self;
    }
}

/// A list of patterns.
pub type Finds = Listed<Find>;

/// A list of numbers of connections.
pub type Numbers = Listed<u32>;

/// A leaf acl by its type, with its values.
pub enum Leaf {
    /// `src`: the client's address.
    Src(Ranges),
    /// `dst`: the address that the request's host spells.
    Dst(Ranges),
    /// `dstdomain`: the request's host, without case.
    DstDomain(Texts),
    /// `port`: the destination port.
    Port(PortRanges),
    /// `method`: the request's method, with case.
    Method(Texts),
    /// `proto`: the target's scheme, without case.
    Proto(Texts),
    /// `time`: the local weekday and minute.
    Time(Hours),
    /// `url_regex`: the target, percent-decoded.
    UrlRegex(Finds),
    /// `maxconn`: how many connections the client's address has open.
    MaxConn(Numbers),
}

// Written out, so that whoever lets a leaf go proves one call, and not what each of its types comes to.
impl Drop for Leaf {
    fn drop(self) {
        match self {
            Leaf::Src(_) | Leaf::Dst(_) => {}
            Leaf::DstDomain(_) | Leaf::Method(_) | Leaf::Proto(_) => {}
            Leaf::Port(_) => {}
            Leaf::Time(_) => {}
            Leaf::UrlRegex(_) => {}
            Leaf::MaxConn(_) => {}
        }
    }
}
