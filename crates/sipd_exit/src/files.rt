ghost use Rattle.std.specs.Prelude.{◌≡◌, ◌≤◌, ◌⊎◌, length, IfOk, IfErr};
ghost use Rattle.sha2.specs.Sha256.{sha256};
ghost use Rattle.sip_config.specs.Stated.{States};
ghost use Rattle.sipd_exit.specs.Files.{IsInForce, IsRefusedWith};
ghost use Rattle.sipd_exit.specs.declared.exit.Exit.TheVariants.{Memory};
ghost use Rattle.sipd_reload.specs.File.{most_bytes};

use crate::exit::Exit;
use sha2::{Digest, Sha256};
use sip_config::read_config_bytes;
use sip_config_types::{Config, sample};
use sip_text::Bytes;
use sipd_reload::read_configuration_file;
use std::alloc::Global;
use std::fs;
use std::rt::Files;

/// The file that states a configuration, and its SHA-256.
pub struct Stated {
    pub bytes: Bytes,
    pub digest: [u8; 32],
}

/// Written out, so that it is proved once and not wherever one is dropped.
impl Drop for Stated {
    fn drop(self) {
        let Stated {
            bytes: _,
            digest: _,
        } = self;
    }
}

impl Stated {
    /// The bytes of a file, with their digest.
    pub fn of(bytes: Bytes) -> Self
        ensures bytes { result.bytes ≡ bytes }
        ensures digest { result.digest ≡ sha256 bytes }
    {
        let digest = Sha256::digest(bytes.as_slice());
        Stated { bytes, digest }
    }
}

/// The bytes of a file that is to state a configuration. `LongConfiguration` where it has more than are read of one, as `/dev/zero` has. What a
/// file holds no clause can say.
pub fn bytes_in<R: Files + AllocGlobal>(rt: &R, path: &str) -> Result<Bytes, Exit>
    ensures { IfOk result (λ bytes. length bytes ≤ most_bytes) }
{
    let mut file = fs::File::open(rt, path)?;
    Ok(read_configuration_file(rt.alloc(), &mut file)?)
}

/// The configuration that the bytes of a file state. A refusal has the number of the configuration's error, or is want of memory.
pub fn config_of_bytes(alloc: Global, bytes: &[u8]) -> Result<Config, Exit>
    ensures stated { IfOk result (States bytes.now) }
    ensures refused { IfErr result (λ exit. (exit ≡ Memory) ⊎ IsRefusedWith bytes.now exit) }
{
    Ok(read_config_bytes(alloc, bytes)?)
}

/// A file that states a configuration, with the digest of the bytes that are handed out.
pub fn stated_in<R: Files + AllocGlobal>(rt: &R, path: &str) -> Result<Stated, Exit>
    ensures digest { IfOk result (λ stated. stated.digest ≡ sha256 stated.bytes) }
    ensures short { IfOk result (λ stated. length stated.bytes ≤ most_bytes) }
{
    let bytes = bytes_in(rt, path)?;
    Ok(Stated::of(bytes))
}

/// The configuration that a file states, or the sample without one.
pub fn config_of<R: Files + AllocGlobal>(rt: &R, path: Option<&str>) -> Result<Config, Exit>
    ensures { IfOk result (IsInForce path.entry) }
{
    match path {
        Some(path) => {
            let bytes = bytes_in(rt, path)?;
            config_of_bytes(rt.alloc(), bytes.as_slice())
        }
        None => Ok(sample(rt.alloc())?),
    }
}
