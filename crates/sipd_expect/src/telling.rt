//! A question that isn't decided as expected, in words.
ghost use Rattle.std.specs.Prelude.{◌≡◌, ◌++◌, codes, IfOk, OnOk};
ghost use Rattle.std.specs.Option.{option_copied};
ghost use Rattle.sipd_ask.specs.Decide.{aor_text};
ghost use Rattle.sipd_expect.specs.Telling as Definitions;

use sip_config_types::Config;
use sip_matrix::Fault;
use sip_policy::Operation;
use sip_text::Bytes;
use sip_uri::Aor;
use sipd_ask::{line_for, put_clock};
use std::alloc::{AllocError, Global};

/// The name of the proven user, if one is.
fn proven_name(proven: &Option<Bytes>) -> Option<&[u8]>
    ensures { option_copied result ≡ proven.now }
{
    match proven {
        Some(name) => Some(name.as_slice()),
        None => None,
    }
}

fn put_asker(text: &mut Bytes, proven: Option<&[u8]>) -> Result<(), AllocError>
    ensures { OnOk result (text.new ≡ text.old ++ Definitions.asker_text (option_copied proven.entry)) }
{
    match proven {
        Some(name) => {
            text.extend(b"user ")?;
            text.extend(name)
        }
        None => text.extend(b"nobody"),
    }
}

fn operation_word(operation: &Operation) -> &[u8]
    ensures { result.now ≡ Definitions.operation_word operation.now }
{
    match operation {
        Operation::Register => b"register",
        Operation::List => b"list",
        Operation::Send(method) => method.as_slice(),
    }
}

fn put_address(text: &mut Bytes, aor: &Aor) -> Result<(), AllocError>
    ensures { OnOk result (text.new ≡ text.old ++ aor_text aor.now) }
{
    text.extend(aor.user.as_slice())?;
    text.extend(b"@")?;
    text.extend(aor.host.as_slice())
}

/// Adds what is asked, for whom.
fn put_asked(text: &mut Bytes, operation: &Operation, aor: &Aor) -> Result<(), AllocError>
    ensures { OnOk result (text.new ≡ text.old ++ codes " " ++ Definitions.operation_word operation.now ++ codes " " ++ aor_text aor.now ++ codes " at ") }
{
    text.extend(b" ")?;
    text.extend(operation_word(operation))?;
    text.extend(b" ")?;
    put_address(text, aor)?;
    text.extend(b" at ")
}

/// The text of a question that isn't decided as expected, with what is decided about it. `AllocError` is the only refusal.
pub(crate) fn fault_text(alloc: Global, config: &Config, fault: &Fault) -> Result<Bytes, AllocError>
    ensures { IfOk result (λ text. text ≡ Definitions.fault_text config.now fault.now) }
{
    let proven = proven_name(&fault.proven);
    let mut text = Bytes::new(alloc);
    put_asker(&mut text, proven)?;
    put_asked(&mut text, &fault.operation, &fault.aor)?;
    put_clock(&mut text, fault.minute)?;
    text.extend(b": ")?;
    let decided = line_for(
        alloc,
        config,
        proven,
        &fault.operation,
        &fault.aor,
        fault.minute,
    )?;
    text.extend(decided.as_slice())?;
    Ok(text)
}
