ghost use Rattle.std.specs.Prelude.{◌≡◌, nat_lt, filter, IfOk};
ghost use Rattle.sip_location.specs.Binding.{is_live, live};
ghost use Rattle.sip_location.specs.AorBindings.{bindings_of};
ghost use Rattle.sip_location.specs.KeptBinding.{binding_of};

use crate::candidate_binding::CandidateBinding;
use crate::row::BindingRow;
use sip_uri::{Aor, Uri};
use sip_uri_equality::Ordered;
use std::alloc::{AllocError, Global};
use std::marker::Model;

/// A binding that stands, whose URI was read once for all contacts of a REGISTER.
#[derive(Drop)]
pub(crate) struct ReadBinding<'a> {
    aor: &'a Aor,
    row: &'a BindingRow,
    uri: Uri,
}

impl<'a> Model for ReadBinding<'a> {
    ghost use Rattle.std.specs.Prelude.{◌≡◌};
    ghost use Rattle.sip_uri.specs.Uri.{IsValid};
    ghost use Rattle.sip_location.specs.declared.binding.Binding.{Binding};
    ghost use Rattle.sip_location.specs.KeptBinding.{binding_of};

    ghost Value = { Binding };

    ghost view = { λ s. binding_of s.aor.now s.row.now };

    ghost invariant = { λ s. (s.uri ≡ s.row.now.uri) × IsValid s.uri };
}

impl<'a> ReadBinding<'a> {
    fn read(alloc: Global, aor: &'a Aor, row: &'a BindingRow) -> Result<Self, AllocError>
        ensures { IfOk result (λ standing. standing ≡ binding_of aor.now row.now) }
    {
        let uri = row.uri(alloc)?;
        Ok(ReadBinding { aor, row, uri })
    }

    /// It, lent.
    pub(crate) fn candidate(&self, alloc: Global) -> Result<CandidateBinding<'_>, AllocError>
        ensures { IfOk result (λ candidate. candidate ≡ self.now) }
    {
        let uri = Ordered::of(alloc, &self.uri)?;
        Ok(CandidateBinding::kept(self.aor, self.row, uri))
    }
}

/// Whether a row is of a binding that is live at a moment.
pub(crate) fn is_live_row(row: &BindingRow, now: u64) -> bool
    ensures { result ≡ nat_lt now row.now.expires_at }
{
    now < row.expires_at()
}

fn read_live<'a>(
    alloc: Global,
    aor: &'a Aor,
    rows: &'a [BindingRow],
    now: u64,
) -> Result<Vec<ReadBinding<'a>>, AllocError>
    ensures { IfOk result (λ bindings. bindings.items ≡ filter (is_live now) (bindings_of aor.now rows.now)) }
{
    let mut bindings = Vec::new(alloc);
    for row in rows {
        if is_live_row(row, now) {
            bindings.push(ReadBinding::read(alloc, aor, row)?)?;
        }
    }
    Ok(bindings)
}

/// The live bindings among what is kept of an address of record.
pub(crate) fn standing_of<'a>(
    alloc: Global,
    aor: &'a Aor,
    rows: &'a [BindingRow],
    now: u64,
) -> Result<Vec<ReadBinding<'a>>, AllocError>
    ensures { IfOk result (λ bindings. bindings.items ≡ live aor.now now (bindings_of aor.now rows.now)) }
{
    read_live(alloc, aor, rows, now)
}
