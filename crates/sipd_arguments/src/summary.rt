ghost use Rattle.std.specs.Prelude.{◌≡◌, ◌++◌, decimal, IfOk, OnOk};
ghost use Rattle.sipd_arguments.specs.Summary;

use sip_config_types::Config;
use sip_text::Bytes;
use std::alloc::{AllocError, Global};

/// Adds a count, and what is counted.
fn put_count(text: &mut Bytes, count: usize, what: &[u8]) -> Result<(), AllocError>
    ensures { OnOk result (text.new ≡ text.old ++ decimal count ++ what.now) }
{
    text.push_decimal(count as u64)?;
    text.extend(what)
}

/// How many users, rules, hops, addresses of hosts and own domains a configuration has, as a line. `AllocError` is
/// the only refusal.
pub fn summary_of(alloc: Global, config: &Config) -> Result<Bytes, AllocError>
    ensures { IfOk result (λ text. text ≡ Summary.summary_of config.now) }
{
    let mut text = Bytes::new(alloc);
    text.extend(b"ok: ")?;
    put_count(&mut text, config.users.as_slice().len(), b" users, ")?;
    put_count(&mut text, config.rules.as_slice().len(), b" rules, ")?;
    put_count(&mut text, config.hops.as_slice().len(), b" hops, ")?;
    put_count(
        &mut text,
        config.addresses.as_slice().len(),
        b" addresses, ",
    )?;
    put_count(
        &mut text,
        config.own.domains.as_slice().len(),
        b" domains\n",
    )?;
    Ok(text)
}
