//! The printed lines of features.

ghost use Rattle.std.specs.Prelude.{◌≡◌, ◌++◌, IfOk, OnOk, map, string_bytes};
ghost use Rattle.vpf_joins.specs.Features.{feature_seen};
ghost use Rattle.vpf_replies.specs.Answer.{done};
ghost use Rattle.vpf_feature_commands.specs.Lines.{feature_line, feature_lines, features_text, primitive_text, primitives_text, table_word, tile_text};

use std::alloc::{AllocError, Global};
use vpf_findings::TableName;
use vpf_joins::{Feature, Primitive};
use vpf_replies::{Reply, Verdict};

/// The word for a table of primitives; features are joined to no other tables.
fn table_word(table: TableName) -> &'static str
    ensures { result.now ≡ table_word table }
{
    match table {
        TableName::Edg => "edg",
        TableName::Fac => "fac",
        TableName::Cnd => "cnd",
        TableName::End => "end",
        _ => "",
    }
}

/// Puts the tile that a primitive is in, where the coverage is in tiles.
fn put_tile(text: &mut String, tiled: bool, tile: u32) -> Result<(), AllocError>
    ensures { OnOk result (string_bytes text.new ≡ string_bytes text.old ++ tile_text tiled tile) }
{
    if tiled {
        write!(text, "{tile}:")?;
    }
    Ok(())
}

/// Puts a primitive behind a space.
fn put_primitive(text: &mut String, tiled: bool, primitive: Primitive) -> Result<(), AllocError>
    ensures { OnOk result (string_bytes text.new ≡ string_bytes text.old ++ primitive_text tiled primitive) }
{
    let Primitive { tile, table, row } = primitive;
    text.push_str(" ")?;
    put_tile(text, tiled, tile)?;
    text.push_str(table_word(table))?;
    write!(text, ":{row}")
}

/// Puts the primitives that are joined to a feature.
fn put_primitives(
    text: &mut String,
    tiled: bool,
    primitives: &[Primitive],
) -> Result<(), AllocError>
    ensures { OnOk result (string_bytes text.new ≡ string_bytes text.old ++ primitives_text tiled primitives.now) }
{
    for primitive in primitives {
        put_primitive(text, tiled, *primitive)?;
    }
    Ok(())
}

/// Puts the line of a feature.
fn put_feature(text: &mut String, tiled: bool, feature: &Feature) -> Result<(), AllocError>
    ensures { OnOk result (string_bytes text.new ≡ string_bytes text.old ++ feature_line tiled (feature_seen feature.now)) }
{
    let row = feature.row;
    write!(text, "{row}")?;
    put_primitives(text, tiled, &feature.primitives)?;
    text.push_str("\n")
}

/// Puts a line for each feature.
fn put_features(text: &mut String, tiled: bool, features: &[Feature]) -> Result<(), AllocError>
    ensures { OnOk result (string_bytes text.new ≡ string_bytes text.old ++ feature_lines tiled (map feature_seen features.now)) }
{
    for feature in features {
        put_feature(text, tiled, feature)?;
    }
    Ok(())
}

/// The text of features: a line for each, and how many there are.
fn features_text(alloc: Global, tiled: bool, features: &[Feature]) -> Result<String, AllocError>
    ensures { IfOk result (λ text. string_bytes text ≡ features_text tiled (map feature_seen features.now)) }
{
    let mut text = String::new(alloc);
    put_features(&mut text, tiled, features)?;
    let count = features.len();
    write!(text, "features {count}\n")?;
    Ok(text)
}

/// The reply that lists features: a line for each, of its row and the primitives that are joined to it, and a line that counts them. `tiled` tells whether the
/// coverage is in tiles: then each primitive is told with its tile.
pub(crate) fn listed(alloc: Global, tiled: bool, features: &[Feature]) -> Result<Reply, AllocError>
    ensures { IfOk result (λ reply. reply ≡ done (features_text tiled (map feature_seen features.now))) }
{
    Ok(Reply::new(alloc, Verdict::Done, features_text(alloc, tiled, features)?))
}
