//! The feature tables that a schema table names.

ghost use Rattle.std.specs.Prelude.{◌≡◌, ◌+◌, ◌<◌, ◌≤◌, ◌++◌, ◌^◌, IfOk, OnOk, length, map};
ghost use Rattle.vpf_feature_files.specs.SchemaRows.Joins.{feature_items, join_of};
ghost use Rattle.vpf_feature_files.specs.Inner.SchemaRows.Listing.{item_text, listed_for, noted};

use crate::schema_rows::items::ItemName;
use crate::schema_rows::rows::SchemaRow;
use std::alloc::{AllocError, Global};
use vpf_findings::FirstPlaces;

/// Lists an item, where it is the first that names its table of features. Those that were noted before are in `seen`.
fn note<'a>(
    seen: &mut FirstPlaces<ItemName<'a>>,
    items: &mut Vec<ItemName<'a>>,
    item: ItemName<'a>,
) -> Result<(), AllocError>
    requires { length seen.old < 2 ^ 32 }
    ensures seen { OnOk result (map item_text seen.new ≡ noted (map item_text seen.old) (item_text item.entry)) }
    ensures items { OnOk result (map item_text items.new.items ≡ map item_text items.old.items ++ listed_for (map item_text seen.old) (item_text item.entry)) }
    ensures few { length seen.new ≤ length seen.old + 1 }
{
    if item.is_feature_table() && seen.put(item)?.is_none() {
        items.push(item)?;
    }
    Ok(())
}

/// The items of these rows that name feature tables, row by row, and in a row the first table before the second. Of items that name the same
/// table only the first is there. Takes memory for each, and fails only for want of it.
pub fn feature_items<'a>(
    alloc: Global,
    rows: &[SchemaRow<'a>],
) -> Result<Vec<ItemName<'a>>, AllocError>
    requires { length rows.now < 2 ^ 31 }
    ensures { IfOk result (λ items. map item_text items.items ≡ feature_items (map join_of rows.now)) }
{
    let mut seen = FirstPlaces::new(alloc);
    let mut items = Vec::new(alloc);
    for row in rows {
        note(&mut seen, &mut items, row.table1)?;
        note(&mut seen, &mut items, row.table2)?;
    }
    Ok(items)
}
