//! The faults of a configuration's text.
ghost use Rattle.std.specs.Prelude.{◌≡◌};
ghost use Rattle.sq_rules.specs.Kinds.{kind_number};

use std::fmt;
use thiserror::Error;

/// What is wrong with a line of a configuration, in the order of their numbers.
#[derive(Clone, Copy, Debug, PartialEq, Eq)]
pub enum Kind {
    /// 1: a joined line has over 65,536 bytes.
    LineTooLong,
    /// 2: the first word is no directive.
    UnknownDirective,
    /// 3: the line ends where a word is needed.
    MissingWord,
    /// 4: a number of an option, of delay pools or of `http_port`, or a pair of such, is not decimal digits
    /// or out of its range.
    BadNumber,
    /// 5: the acl's type is none of the types.
    UnknownAclType,
    /// 6: the acl's name stands with another type.
    TypeClash,
    /// 7: no acl of that name stands before, or none whose first line is before the group's.
    UndefinedAcl,
    /// 8: a name, an action, a mode or a value is outside its form, a word is one too many, or a line stands
    /// again that may stand once or stands where it may not.
    BadValue,
    /// 9: no class of that name stands before.
    UndefinedClass,
    /// 10: the class's name stands already.
    DuplicateClass,
    /// 11: the option of `external_acl_type` or `url_rewrite_children` is none of the options.
    UnknownOption,
    /// 12: the token of `external_acl_type` is none of the tokens.
    UnknownToken,
    /// 13: a rule of a delay pool or for fields asks a helper or reaches an acl that does.
    SlowInFastList,
    /// 14: the syntax does not read a pattern of `url_regex`, or it nests more than 250 deep.
    BadPattern,
    /// 15: the number of a delay pool is 0 or above that of `delay_pools`.
    PoolOutOfRange,
    /// 16: a delay pool has no class or no parameters at the end of the file.
    PoolIncomplete,
    /// 17: a limit is passed.
    TooMany,
    /// 18: groups nest more than 32 deep.
    TooDeep,
    /// 19: the line is not UTF-8.
    NotUtf8,
    /// 20: a word of `time` is outside its form.
    BadTime,
}

impl Kind {
    /// Its number, as `error config LINE KIND` prints it.
    pub fn number(self) -> u8
        ensures { result ≡ kind_number self }
    {
        match self {
            Kind::LineTooLong => 1,
            Kind::UnknownDirective => 2,
            Kind::MissingWord => 3,
            Kind::BadNumber => 4,
            Kind::UnknownAclType => 5,
            Kind::TypeClash => 6,
            Kind::UndefinedAcl => 7,
            Kind::BadValue => 8,
            Kind::UndefinedClass => 9,
            Kind::DuplicateClass => 10,
            Kind::UnknownOption => 11,
            Kind::UnknownToken => 12,
            Kind::SlowInFastList => 13,
            Kind::BadPattern => 14,
            Kind::PoolOutOfRange => 15,
            Kind::PoolIncomplete => 16,
            Kind::TooMany => 17,
            Kind::TooDeep => 18,
            Kind::NotUtf8 => 19,
            Kind::BadTime => 20,
        }
    }
}

/// A fault of a configuration's text: the number of its line, from 1, or 0 where it is of the whole
/// text, and what is wrong.
#[derive(Clone, Copy, Debug, PartialEq, Eq, Error)]
pub struct ConfError {
    pub line: u32,
    pub kind: Kind,
}

impl fmt::Display for ConfError {
    ghost use Rattle.std.specs.Prelude.{Some};
    ghost use Rattle.sq_rules.specs.Kinds.{fault_text};

    ghost output = { λ e. Some (fault_text e) };

    /// The line and the kind by their numbers.
    fn fmt<W: fmt::Write>(&self, f: &mut fmt::Formatter<W>) -> fmt::Result {
        let number = self.kind.number();
        write!(f, "line {}, kind {number}", self.line)
    }
}
