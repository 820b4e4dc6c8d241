ghost use Rattle.std.specs.Prelude.{◌≡◌, ◌∷◌, [], IfSome, IfNone};
ghost use Rattle.sip_location.specs.Binding.{is_live};
ghost use Rattle.sip_location.specs.AorBindings.{bindings_of};

use crate::aor_ref::AorRef;
use crate::binding::BindingRef;
use crate::row::BindingRow;
use std::marker::Model;

/// Bindings of an address of record in their order, lent as they are kept: those that are left to be given.
#[derive(Drop)]
pub struct Bindings<'a> {
    aor: AorRef<'a>,
    rows: &'a [BindingRow],
}

impl<'a> Model for Bindings<'a> {
    ghost use Rattle.std.specs.Prelude.{List};
    ghost use Rattle.sip_location.specs.declared.binding.Binding.{Binding};
    ghost use Rattle.sip_location.specs.AorBindings.{bindings_of};

    ghost Value = { List Binding };

    ghost view = { λ b. bindings_of b.aor b.rows.now };
}

impl<'a> Bindings<'a> {
    pub(crate) fn new(aor: AorRef<'a>, rows: &'a [BindingRow]) -> Self
        ensures { result ≡ bindings_of aor.entry rows.now }
    {
        Bindings { aor, rows }
    }

    /// The next one. Behind the last there is none, however often it is asked for.
    pub fn next(&mut self) -> Option<BindingRef<'a>>
        ensures some { IfSome result (λ binding. self.old ≡ binding ∷ self.new) }
        ensures none { IfNone result ((self.old ≡ []) × (self.new ≡ [])) }
    {
        let (row, rest) = self.rows.split_first()?;
        self.rows = rest;
        Some(BindingRef::new(self.aor.again(), row))
    }
}

/// The live bindings of an address of record in their order, lent as they are kept: those that are left to be given.
#[derive(Drop)]
pub struct LiveBindings<'a> {
    left: Bindings<'a>,
    now: u64,
}

impl<'a> Model for LiveBindings<'a> {
    ghost use Rattle.std.specs.Prelude.{List, filter};
    ghost use Rattle.sip_location.specs.declared.binding.Binding.{Binding};
    ghost use Rattle.sip_location.specs.Binding.{is_live};

    ghost Value = { List Binding };

    ghost view = { λ l. filter (is_live l.now) l.left };
}

/// Whether a binding is live at a moment.
fn is_live(binding: &BindingRef<'_>, now: u64) -> bool
    ensures { result ≡ is_live now binding.now }
{
    now < binding.expires_at()
}

impl<'a> LiveBindings<'a> {
    ghost use Rattle.std.specs.Prelude.{filter};

    pub(crate) fn new(left: Bindings<'a>, now: u64) -> Self
        ensures { result ≡ filter (is_live now) left.entry }
    {
        LiveBindings { left, now }
    }

    /// The next one. Behind the last there is none, however often it is asked for.
    pub fn next(&mut self) -> Option<BindingRef<'a>>
        ensures some { IfSome result (λ binding. self.old ≡ binding ∷ self.new) }
        ensures none { IfNone result ((self.old ≡ []) × (self.new ≡ [])) }
    {
        while let Some(binding) = self.left.next() {
            if is_live(&binding, self.now) {
                return Some(binding);
            }
        }
        None
    }
}
