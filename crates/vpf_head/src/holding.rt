//! What the columns of a table hold.

ghost use Rattle.std.specs.Prelude.{◌≡◌, ◌||◌};
ghost use Rattle.std.specs.List.{list_any};
ghost use Rattle.indexmap.specs.IndexMap.{values};
ghost use Rattle.vpf_head.specs.Head.{is_data, is_triplet, is_star};

use crate::reading::Columns;
use vpf_triplet::{Count, Kind};

fn is_data(kind: Kind) -> bool
    ensures { result ≡ is_data kind }
{
    kind != Kind::X
}

/// Whether a column holds more than filler.
pub fn holds_data(columns: &Columns<'_>) -> bool
    ensures { result ≡ list_any (λ column. is_data column.kind) (values columns.now) }
{
    columns.values().any(|column| is_data(column.kind))
}

fn is_triplet(kind: Kind) -> bool
    ensures { result ≡ is_triplet kind }
{
    kind == Kind::K
}

fn is_star(count: Count) -> bool
    ensures { result ≡ is_star count }
{
    count == Count::Star
}

/// Whether rows of these columns may differ in length.
pub fn varies(columns: &Columns<'_>) -> bool
    ensures { result ≡ list_any (λ column. is_triplet column.kind || is_star column.count) (values columns.now) }
{
    columns
        .values()
        .any(|column| is_triplet(column.kind) || is_star(column.count))
}
