//! Whether a thematic index is one of a column.

ghost use Rattle.std.specs.Prelude.{◌≡◌, ◌<◌, length, option_map};
ghost use Rattle.vpf_triplet.specs.Kinds.{is_fixed, same_kind};
ghost use Rattle.vpf_head.specs.Inner.Views.{col};
ghost use Rattle.vpf_findings.specs.Findings.{disagreement_of};
ghost use Rattle.vpf_theme.specs.Findings.{fits_line, kind_line, of_column, row_count_line};

use crate::reporting::finding;
use crate::view::ThemeView;
use vpf_head::Column;
use vpf_table::{Finding, Seen, TableView};
use vpf_triplet::{Count, Kind};

fn same_kind(a: Kind, b: Kind) -> bool
    ensures { result ≡ same_kind a b }
{
    a == b
}

fn is_fixed(n: u32, count: Count) -> bool
    ensures { result ≡ is_fixed n count }
{
    count == Count::Fixed(n)
}

/// Kind and count are the column's.
fn check_kind<'a>(theme: &ThemeView<'_>, column: &Column<'a>) -> Option<Finding<'a>>
    ensures { option_map disagreement_of result ≡ kind_line theme.now (col column.now) }
{
    if same_kind(theme.kind(), column.kind) && is_fixed(theme.count(), column.count) {
        return None;
    }
    let found = Seen::Kind(theme.kind(), Count::Fixed(theme.count()));
    Some(finding(0, column.name, found, Seen::Kind(column.kind, column.count)))
}

/// The number of rows is the table's.
fn check_rows<'a>(theme: &ThemeView<'_>, column: &Column<'a>, rows: u32) -> Option<Finding<'a>>
    ensures { option_map disagreement_of result ≡ row_count_line theme.now (col column.now) rows }
{
    if theme.rows() == rows {
        return None;
    }
    let found = Seen::Number(i64::from(theme.rows()));
    Some(finding(0, column.name, found, Seen::Number(i64::from(rows))))
}

/// The finding where kind, count or number of rows of a thematic index aren't those of the column and its table.
pub fn fits_table<'a>(
    theme: &ThemeView<'_>,
    table: &TableView<'a>,
    column: usize,
) -> Option<Finding<'a>>
    requires { column < length table.now.head.columns }
    ensures { option_map disagreement_of result ≡ of_column table.now column (λ c. fits_line theme.now c (length table.now.rows)) }
{
    let header = table.header();
    let found = header.at(column);
    check_kind(theme, found).or(check_rows(theme, found, table.len()))
}
