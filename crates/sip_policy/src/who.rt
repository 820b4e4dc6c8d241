ghost use Rattle.std.specs.Prelude.{◌≡◌};
ghost use Rattle.std.specs.Option.{option_copied};
ghost use Rattle.sip_policy.specs.Rule.{is_anyone};
ghost use Rattle.sip_policy.specs.Who.{matches_who};

use crate::Users;
use sip_text::{Bytes, same_bytes};
use std::alloc::AllocError;

/// The user pattern of a rule.
#[derive(Drop)]
pub enum Who {
    /// `anyone`: also one who proved nothing.
    Anyone,
    /// `proven`: any user who proved to be one.
    Proven,
    /// `user NAME`: that user.
    User(Bytes),
    /// `group NAME`: a user of that group.
    Group(Bytes),
}

impl Clone for Who {
    ghost is_clone = { λ who copy. copy ≡ who };

    fn clone(&self) -> Result<Who, AllocError> {
        match self {
            Who::Anyone => Ok(Who::Anyone),
            Who::Proven => Ok(Who::Proven),
            Who::User(name) => Ok(Who::User(name.clone()?)),
            Who::Group(name) => Ok(Who::Group(name.clone()?)),
        }
    }
}

impl Who {
    /// Whether a proven user of this name is of the pattern; with nobody proven the pattern isn't looked
    /// at, since who asks may be any user. Takes no memory.
    pub fn matches(&self, users: &Users, proven: Option<&[u8]>) -> bool
        ensures { result ≡ matches_who users.now (option_copied proven.entry) self.now }
    {
        let Some(name) = proven else {
            return true;
        };
        match self {
            Who::Anyone => true,
            Who::Proven => true,
            Who::User(wanted) => same_bytes(name, wanted.as_slice()),
            Who::Group(group) => users.is_in_group(name, group.as_slice()),
        }
    }

    /// Whether the pattern is `anyone`. Takes no memory.
    pub fn is_anyone(&self) -> bool
        ensures { result ≡ is_anyone self.now }
    {
        matches!(self, Who::Anyone)
    }
}
