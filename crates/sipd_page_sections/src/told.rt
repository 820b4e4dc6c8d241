//! What is known of a record that was told.
ghost use Rattle.std.specs.Prelude.{◌≡◌, IfOk};
ghost use Rattle.sipd_page_sections.specs.Sections.{policy_by};

use sip_config_types::Config;
use sip_policy::Operation;
use sip_text::Bytes;
use sipd_matrix_forms::{Level, put_policy};
use std::alloc::{AllocError, Global};

/// What is known of a record that was told: the policy that is in force at its end, and how far its clock is ahead of UTC; the digest of the
/// configuration with which it begins; and that of its end, where that is sealed.
pub struct FileTold {
    pub policy: Bytes,
    pub offset: i16,
    pub digest: [u8; 32],
    pub sealed: Option<[u8; 32]>,
}

/// Written out, so that it is proved once and not wherever one is dropped.
impl Drop for FileTold {
    fn drop(self) {
        let FileTold {
            policy: _,
            offset: _,
            digest: _,
            sealed: _,
        } = self;
    }
}

/// The policy of a configuration for an INVITE, as HTML, under headings of a section.
pub fn policy_of(alloc: Global, config: &Config) -> Result<Bytes, AllocError>
    ensures { IfOk result (λ policy. policy ≡ policy_by config.now) }
{
    let invite = Operation::Send(Bytes::copy(alloc, b"INVITE")?);
    let mut policy = Bytes::new(alloc);
    put_policy(alloc, &mut policy, Level::Section, config, &invite)?;
    Ok(policy)
}
