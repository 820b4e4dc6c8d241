//! The whole policy of a configuration for one operation.
ghost use Rattle.std.specs.Prelude.{◌≡◌, ◌++◌, IfOk, OnOk};
ghost use Rattle.std.specs.Option.{option_copied};
ghost use Rattle.sip_matrix.specs.Table as Tables;
ghost use Rattle.sipd_matrix.specs.Cells as Definitions;

use crate::cell::Cell;
use crate::cells::{are_known, has_own, number_at, put_value};
use sip_config_types::Config;
use sip_matrix::{Column, PolicyTable, table_of};
use sip_policy::Operation;
use sip_text::Bytes;
use std::alloc::{AllocError, Global};

/// The whole policy of a configuration for one operation, lent.
#[derive(Clone, Copy)]
pub struct Matrix<'a> {
    pub config: &'a Config,
    pub operation: &'a Operation,
    /// The cells that there are, as `policy_table` says.
    pub table: &'a PolicyTable,
}

/// The table of a configuration, which is the same for each operation. `AllocError` is the only refusal.
pub fn policy_table(alloc: Global, config: &Config) -> Result<PolicyTable, AllocError>
    ensures { IfOk result (λ table. table ≡ Tables.table_of config.now.rules config.now.users config.now.own.domains) }
{
    let table = table_of(
        alloc,
        config.rules.as_slice(),
        &config.users,
        config.own.domains.as_slice(),
    )?;
    Ok(table)
}

impl Matrix<'_> {
    /// Whether a row of users and a class have a second value, for the asker's own address. Takes no memory.
    pub fn has_second(&self, piece: u16, class: &Column, row: &[u8]) -> bool
        ensures { result ≡ Definitions.has_second self.now.config.now self.now.operation.now self.now.table.now.columns class.now row.now piece }
    {
        if !has_own(self.config, self.table.columns.as_slice(), class, row) {
            return false;
        }
        let cell = Cell {
            row: Some(row),
            class,
            piece,
        };
        let others = number_at(self.config, self.operation, &cell, false);
        let own = number_at(self.config, self.operation, &cell, true);
        others != own
    }

    /// Adds the second value, if there is one.
    fn put_second(
        &self,
        text: &mut Bytes,
        piece: u16,
        class: &Column,
        row: &[u8],
    ) -> Result<(), AllocError>
        ensures { OnOk result (text.new ≡ text.old
            ++ Definitions.second_text self.now.config.now self.now.operation.now self.now.table.now.columns class.now row.now piece) }
    {
        if !self.has_second(piece, class, row) {
            return Ok(());
        }
        let cell = Cell {
            row: Some(row),
            class,
            piece,
        };
        text.extend(b"/")?;
        put_value(text, self.config, self.operation, &cell, true)
    }

    /// Adds what stands in a cell. `AllocError` is the only refusal.
    pub fn put_cell(&self, text: &mut Bytes, cell: &Cell<'_>) -> Result<(), AllocError>
        ensures { OnOk result (text.new ≡ text.old ++ Definitions.cell_text self.now.config.now self.now.operation.now self.now.table.now.columns
            cell.now.class.now cell.now.piece (option_copied cell.now.row)) }
    {
        match cell.row {
            None => {
                let known = are_known(self.config, cell.class);
                put_value(text, self.config, self.operation, cell, known)
            }
            Some(row) => {
                put_value(text, self.config, self.operation, cell, false)?;
                self.put_second(text, cell.piece, cell.class, row)
            }
        }
    }
}
