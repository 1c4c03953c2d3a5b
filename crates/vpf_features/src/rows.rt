//! The rows of feature tables.

ghost use Rattle.std.specs.Prelude.{length};
ghost use Rattle.vpf_findings.specs.Firsts.{Finds, first_of_rows};
ghost use Rattle.vpf_prims.specs.Columns.{IsWithin, role_at};
ghost use Rattle.vpf_prims.specs.Lines.{id_line};
ghost use Rattle.vpf_features.specs.Lines.{feature_at, feature_finding};

use vpf_findings::{Finding, TableName};
use vpf_prims::{ID, RoleColumn, TableAt, check_id, place_role};
use vpf_table::TableView;

/// Where the findings are: in no tile, and in the file in hand.
const FEATURES: TableAt = TableAt {
    tile: 0,
    table: TableName::Feature,
    file: 0,
};

/// The id of each row is its number.
fn check_ids<'a>(table: &TableView<'a>, column: &RoleColumn<'a>) -> Result<(), Finding<'a>>
    requires { IsWithin (length table.now.head.columns) (role_at column.now) }
    ensures { Finds result (first_of_rows (λ k row. id_line feature_at k (role_at column.now) row) 1 table.now.rows) }
{
    // There are few enough rows to count them.
    let _rows = table.len();
    let mut k = 0;
    for row in table.rows() {
        k += 1;
        check_id(FEATURES, k, column, &row)?;
    }
    Ok(())
}

/// The columns of a feature table are there, and its features are numbered from 1; or the first finding. The rows are passed once.
pub(crate) fn check_features<'a>(table: &TableView<'a>) -> Result<(), Finding<'a>>
    ensures { Finds result (feature_finding table.now) }
{
    let column = place_role(FEATURES, table.header(), &ID)?;
    check_ids(table, &column)
}
