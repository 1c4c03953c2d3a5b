//! How many primitives a coverage has in all its tiles.

ghost use Rattle.vpf_prims.specs.Libraries.{library_of};
ghost use Rattle.vpf_library_commands.specs.Counting.{AreCounts, AreFew, AreTotals};

use vpf_coverage::Coverage;
use vpf_prims::Tile;

/// Numbers of primitives.
#[derive(Clone, Copy, Debug, PartialEq, Eq)]
pub struct Totals {
    /// Edges.
    pub edges: u64,
    /// Faces, the universe included.
    pub faces: u64,
    /// Connected nodes.
    pub nodes: u64,
    /// Entity nodes.
    pub entities: u64,
}

impl Totals {
    ghost use Rattle.std.specs.Prelude.{◌≡◌, ◌+◌, ◌^◌, Some, length};
    ghost use Rattle.vpf_prims.specs.Primitives.{entities_in};
    ghost use Rattle.vpf_prims.specs.Reading.{primitives_of};
    ghost use Rattle.vpf_library_commands.specs.Counting.{AreFew};

    /// Those of no tile.
    const NONE: Totals = Totals {
        edges: 0,
        faces: 0,
        nodes: 0,
        entities: 0,
    };

    /// Those of a tile.
    fn of(tile: &Tile<'_>) -> Totals
        ensures edges { result.edges ≡ length (primitives_of tile.now.tables).edges }
        ensures faces { result.faces ≡ length (primitives_of tile.now.tables).faces }
        ensures nodes { result.nodes ≡ length (primitives_of tile.now.tables).nodes }
        ensures entities { result.entities ≡ length (entities_in (Some (primitives_of tile.now.tables))) }
        ensures few { AreFew 1 result }
    {
        Totals {
            edges: u64::from(tile.edges()),
            faces: u64::from(tile.faces()),
            nodes: u64::from(tile.nodes()),
            entities: u64::from(tile.entities()),
        }
    }

    /// These and those of another tile.
    fn and(self, other: Totals) -> Totals
        requires few { AreFew (2 ^ 32) self }
        requires other { AreFew 1 other }
        ensures edges { result.edges ≡ self.edges + other.edges }
        ensures faces { result.faces ≡ self.faces + other.faces }
        ensures nodes { result.nodes ≡ self.nodes + other.nodes }
        ensures entities { result.entities ≡ self.entities + other.entities }
    {
        Totals {
            edges: self.edges + other.edges,
            faces: self.faces + other.faces,
            nodes: self.nodes + other.nodes,
            entities: self.entities + other.entities,
        }
    }
}

/// The numbers of the tile of this number: none where it is empty.
fn counts_of(coverage: &Coverage<'_>, t: u32) -> Totals
    ensures counts { AreCounts (library_of coverage.now) t result }
    ensures few { AreFew 1 result }
{
    match coverage.tile(t) {
        Some(tile) => Totals::of(tile),
        None => Totals::NONE,
    }
}

/// The numbers of all tiles of a coverage: face 1, the universe, is counted in each.
pub fn totals_of(coverage: &Coverage<'_>) -> Totals
    ensures { AreTotals coverage.now result }
{
    let mut totals = Totals::NONE;
    for t in 0..=coverage.tiles() {
        totals = totals.and(counts_of(coverage, t));
    }
    totals
}
