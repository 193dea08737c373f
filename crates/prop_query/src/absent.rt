//! What a call answers where the database has no such table.
ghost use Rattle.std.specs.Prelude.{◌≡◌};
ghost use Rattle.prop_data.specs.declared.table.DataError.TheVariants.{Absent};

use prop_data::{DataError, TableName};

/// That the table is absent.
pub(crate) fn absent(table: TableName) -> DataError
    ensures { result ≡ Absent table }
{
    DataError::Absent { table }
}
