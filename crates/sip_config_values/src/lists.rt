ghost use Rattle.toml.specs.View.{view, table_view, items_view};
ghost use Rattle.sip_config_values.specs.Refusals.{Tells};
ghost use Rattle.sip_config_values.specs.Rows as Definitions;

use crate::key::ConfigKey;
use crate::refusal::{Refusal, placed};
use crate::table_kind::TableKind;
use crate::values::{items_at, table_of};
use toml::{Table, Value};

/// The items of a list of tables, none where it isn't there.
pub fn list_at(list: ConfigKey, table: &Table) -> Result<&[Value], Refusal>
    ensures { Tells (λ items. items_view items.now) result (Definitions.list_at list (table_view table.now)) }
{
    placed(TableKind::Whole, 0, list, items_at(table, list.name()))
}

/// The table that an item of such a list is; where it is none, the list is refused.
pub fn table_in(list: ConfigKey, value: &Value) -> Result<&Table, Refusal>
    ensures { Tells (λ table. table_view table.now) result (Definitions.table_in list (view value.now)) }
{
    placed(TableKind::Whole, 0, list, table_of(value))
}
