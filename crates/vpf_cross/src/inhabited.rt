//! Entity nodes lie in faces of their tile.

ghost use Rattle.std.specs.Prelude.{◌≡◌, ◌+◌, Some, codes, length};
ghost use Rattle.vpf_findings.specs.Findings.{column_name};
ghost use Rattle.vpf_findings.specs.Firsts.{Finds};
ghost use Rattle.vpf_prims.specs.Lists.{kth};
ghost use Rattle.vpf_prims.specs.Numbering.{IsRowOf};
ghost use Rattle.vpf_prims.specs.Primitives.{absent_entity, entities_in};
ghost use Rattle.vpf_prims.specs.Reading.{primitives_of};
ghost use Rattle.vpf_prims.specs.Columns.{reference_column};
ghost use Rattle.vpf_cross.specs.CarriedLines.{inhabited_finding, universe_entity_line};

use crate::tables::table_at;
use vpf_findings::{ColumnAt, Finding, Seen, TableName};
use vpf_head::Header;
use vpf_prims::Tile;
use vpf_table::TableView;

/// The column of the faces that entity nodes lie in.
const CONTAINING_FACE: &[u8] = b"containing_face";

/// That column as the header spells it.
fn face_column<'a>(header: &Header<'a>) -> ColumnAt<'a>
    ensures { column_name result ≡ (reference_column header.now.columns (codes "containing_face")).name }
{
    match header.column(CONTAINING_FACE) {
        Some(place) => ColumnAt::new(header.at(place).name),
        None => ColumnAt::new(CONTAINING_FACE),
    }
}

/// Entity node `n` doesn't lie in the universe.
fn check_entity<'a>(
    tile: &Tile<'a>,
    number: u32,
    end: &TableView<'a>,
    n: u32,
) -> Result<(), Finding<'a>>
    requires end { tile.now.tables.end ≡ Some end.now }
    requires row { IsRowOf (length (entities_in (Some (primitives_of tile.now.tables)))) n }
    ensures { Finds result (universe_entity_line number tile.now end.now n (kth (entities_in (Some (primitives_of tile.now.tables))) n absent_entity)) }
{
    if tile.containing_face(n) != 1 {
        return Ok(());
    }
    let at = table_at(tile, number, TableName::End);
    let wanted = Seen::Range(2, tile.faces());
    Err(at.finding(8, n, face_column(end.header()), Seen::Number(1), wanted))
}

/// Each entity node of the tile of this number lies in a face that the tile has, and not in the universe (MIL-STD-2407, 5.2.3, cross-tile
/// topology). The first that doesn't is the finding. It takes no memory.
#[tactic(auto, using(vpf_findings::specs::Inner::FirstLaws::over_pass, vpf_findings::specs::Inner::FirstLaws::over_stop, vpf_findings::specs::Inner::FirstLaws::over_end))]
pub fn check_inhabited<'a>(tile: &Tile<'a>, number: u32) -> Result<(), Finding<'a>>
    ensures { Finds result (inhabited_finding number tile.now) }
{
    let Some(end) = tile.table(TableName::End) else {
        return Ok(());
    };
    for n in 0..tile.entities() {
        check_entity(tile, number, end, n + 1)?;
    }
    Ok(())
}
