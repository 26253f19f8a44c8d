//! Why a group can't have a further member.
use sq_base::WantOfMemory;
use thiserror::Error;

/// Why a group can't have a further member.
#[derive(Clone, Copy, PartialEq, Eq, Debug, Error)]
pub enum MemberFault {
    /// A rule of a delay pool or for fields would then reach an acl that asks a helper.
    #[error("a rule of a delay pool or for fields would reach an acl that asks a helper")]
    Slow,
    /// Groups would then nest more than 32 deep.
    #[error("groups would nest more than 32 deep")]
    Deep,
    /// There was no memory.
    #[error("out of memory")]
    WantOfMemory,
}

impl From<WantOfMemory> for MemberFault {
    ghost use Rattle.std.specs.Prelude.{◌≡◌};
    ghost use Rattle.sq_rules.specs.declared.member_faults.MemberFault.TheVariants as fault;

    ghost from_gives = { λ _ e. e ≡ fault.WantOfMemory };

    fn from(_error: WantOfMemory) -> MemberFault {
        MemberFault::WantOfMemory
    }
}
