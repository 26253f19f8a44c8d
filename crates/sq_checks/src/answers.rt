//! What a run comes to, and what is given to it.
ghost use Rattle.std.specs.Prelude.{◌≡◌};
ghost use Rattle.sq_checks.specs.GivenValues.{needed_by};

use sq_base::Cause;

/// The value of an external acl, as a helper's answer gives it: OK is a match, ERR is none.
#[derive(Clone, Copy)]
pub enum Given {
    Hit,
    Miss,
    Fault(Cause),
}

/// Where a verdict was reached.
#[derive(Clone, Copy, Debug)]
pub enum Place {
    /// The rule of this number, from 1, matched.
    Rule(u32),
    /// No rule matched: the opposite of the last rule.
    Default,
    /// There is no rule.
    Empty,
    /// The external acl at this place, in the rule of this number, had a fault.
    Fault { rule: u32, acl: u32, cause: Cause },
}

/// What a run came to.
#[derive(Clone, Copy, Debug)]
pub enum Ran {
    /// The rules decide.
    Verdict { allow: bool, place: Place },
    /// First the external acl at this place has to be given a value.
    Need(u32),
}

/// The external acl that is needed, if one is.
pub fn needed_by(ran: Ran) -> Option<u32>
    ensures { result ≡ needed_by ran }
{
    match ran {
        Ran::Verdict { allow: _, place: _ } => None,
        Ran::Need(acl) => Some(acl),
    }
}
