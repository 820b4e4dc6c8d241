//! What two configurations make of the questions of a cell, and which cells have questions.
ghost use Rattle.std.specs.Prelude.{◌≡◌, is_none, IfOk, Some};
ghost use Rattle.std.specs.Option.{option_copied};
ghost use Rattle.sipd_matrix_changes.specs.Both;
ghost use Rattle.sipd_matrix_changes.specs.Change as Definitions;

use crate::both_configurations::{ask_alike, proven_to};
use crate::table::are_asked_alike;
use sip_config_types::Config;
use sip_matrix::{Column, PolicyTable, agree};
use sip_policy::{Operation, User, is_own_domain};
use sip_text::{Bytes, same_bytes};
use sip_uri::Aor;
use sipd_matrix::{Cell, are_known, put_mark_at};
use std::alloc::{AllocError, Global};

/// A new configuration that takes the place of an old one, and an operation, lent.
#[derive(Clone, Copy)]
pub(crate) struct Change<'a> {
    pub(crate) old: &'a Config,
    pub(crate) new: &'a Config,
    pub(crate) operation: &'a Operation,
    /// That of both configurations together.
    pub(crate) table: &'a PolicyTable,
}

/// Whether who asks is nobody to a configuration.
fn is_nobody(config: &Config, row: Option<&[u8]>) -> bool
    ensures { result ≡ is_none (Both.proven_to config.now (option_copied row.entry)) }
{
    match proven_to(config, row) {
        None => true,
        Some(_) => false,
    }
}

/// Whether `self` means the addresses of a cell.
pub(crate) fn own_to(config: &Config, cell: &Cell<'_>, own: bool) -> bool
    ensures { result ≡ Definitions.own_to config.now (option_copied cell.now.row) cell.now.class.now own }
{
    if !are_known(config, cell.class) {
        return false;
    }
    own || is_nobody(config, cell.row)
}

/// What a configuration makes of the questions of a cell.
fn decided_in(
    alloc: Global,
    config: &Config,
    operation: &Operation,
    cell: &Cell<'_>,
    own: bool,
) -> Result<Bytes, AllocError>
    ensures { IfOk result (λ mark. mark ≡ Definitions.decided_in config.now operation.now (option_copied cell.now.row) cell.now.class.now own
        cell.now.piece) }
{
    let mut mark = Bytes::new(alloc);
    let own = own_to(config, cell, own);
    let asked = Cell {
        row: proven_to(config, cell.row),
        class: cell.class,
        piece: cell.piece,
    };
    put_mark_at(&mut mark, config, operation, &asked, own)?;
    Ok(mark)
}

/// Whether a host is an own domain of one of both.
fn is_host_of_both(old: &Config, new: &Config, host: &[u8]) -> bool
    ensures { result ≡ Both.is_host_of_both old.now new.now host.now }
{
    is_own_domain(old.own.domains.as_slice(), host)
        || is_own_domain(new.own.domains.as_slice(), host)
}

/// Whether a name is a user's of one of both.
fn is_name_of_both(old: &Config, new: &Config, name: &[u8]) -> bool
    ensures { result ≡ Both.is_name_of_both old.now new.now name.now }
{
    old.users.has_name(name) || new.users.has_name(name)
}

/// Whether a user asks for his own address, where he asks for this.
fn asks_own(old: &Config, new: &Config, name: &[u8], aor: &Aor) -> bool
    ensures { result ≡ Both.asks_own old.now new.now (Some name.now) aor.now }
{
    is_host_of_both(old, new, aor.host.as_slice())
        && is_name_of_both(old, new, aor.user.as_slice())
        && same_bytes(aor.user.as_slice(), name)
}

fn owns_column(old: &Config, new: &Config, name: &[u8], column: &Column) -> bool
    ensures { result ≡ Definitions.owns_column old.now new.now name.now column.now }
{
    match column {
        Column::Named(aor) => asks_own(old, new, name, aor),
        Column::Begins(_) | Column::Elsewhere => false,
    }
}

/// Whether a class has a column in which a user asks for his own address, or for another.
fn has_column(
    old: &Config,
    new: &Config,
    columns: &[Column],
    class: &Column,
    own: bool,
    name: &[u8],
) -> bool
    ensures { result ≡ Definitions.has_column old.now new.now columns.now class.now own name.now }
{
    columns.iter().any(|column| {
        are_asked_alike(old, new, class, column) && agree(owns_column(old, new, name, column), own)
    })
}

impl Change<'_> {
    /// Whether two configurations make something else of the questions of a cell.
    pub(crate) fn is_changed_in(
        &self,
        alloc: Global,
        cell: &Cell<'_>,
        own: bool,
    ) -> Result<bool, AllocError>
        ensures { IfOk result (λ changed. changed ≡ Definitions.is_changed_in self.now.old.now self.now.new.now self.now.operation.now
            (option_copied cell.now.row) cell.now.class.now own cell.now.piece) }
    {
        let before = decided_in(alloc, self.old, self.operation, cell, own)?;
        let behind = decided_in(alloc, self.new, self.operation, cell, own)?;
        Ok(!same_bytes(before.as_slice(), behind.as_slice()))
    }

    /// Whether some user of a row asks for his own address in a class, or for another.
    fn has_asker(&self, row: &[u8], class: &Column, own: bool, users: &[User]) -> bool
        ensures { result ≡ Definitions.has_asker self.now.old.now self.now.new.now self.now.table.now.columns row.now class.now own users.now }
    {
        let old = self.old;
        let new = self.new;
        let columns = self.table.columns.as_slice();
        users.iter().any(|user| {
            ask_alike(old, new, row, user.name.as_slice())
                && has_column(old, new, columns, class, own, user.name.as_slice())
        })
    }

    /// Whether a cell has questions.
    pub(crate) fn has_question(&self, cell: &Cell<'_>, own: bool) -> bool
        ensures { result ≡ Definitions.has_question self.now.old.now self.now.new.now self.now.table.now.columns (option_copied cell.now.row)
            cell.now.class.now own }
    {
        match cell.row {
            None => !own,
            Some(row) => {
                self.has_asker(row, cell.class, own, self.old.users.as_slice())
                    || self.has_asker(row, cell.class, own, self.new.users.as_slice())
            }
        }
    }
}
