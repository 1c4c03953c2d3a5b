//! Edges that have wings.

ghost use Rattle.std.specs.Prelude.{◌≡◌, ◌^◌, ◌<◌, List, length};
ghost use Rattle.vpf_value.specs.Values.{Value, view};
ghost use Rattle.vpf_darts.specs.declared.darts.Dart.{Dart};
ghost use Rattle.vpf_prims.specs.declared.rows.Edge.{Edge};
ghost use Rattle.vpf_prims.specs.Edges.{HaveWings, IsEdge};
ghost use Rattle.vpf_wing.specs.Nexts.{edge_at, wing_in};

use vpf_darts::Dart;
use vpf_prims::Edge;
use vpf_value::Cell;

/// The wing of the `+` or `-` dart of an edge.
pub fn wing_in(edge: Edge, minus: bool) -> u32
    ensures { result ≡ wing_in minus edge }
{
    if minus {
        edge.left_edge
    } else {
        edge.right_edge
    }
}

/// The edges of a table, or of a tile. Cells are seen in a file that lives for `'a`.
pub trait WingedEdges<'a> {
    // The edges, by their numbers from 1.
    ghost edges: { Self → List Edge };

    // The cell of a dart's wing.
    ghost wing_value: { Self → Dart → Value };

    /// How many edges there are.
    fn len(&self) -> u32
        requires { length (edges self.now) < 2 ^ 24 }
        ensures { result ≡ length (edges self.now) };

    /// The edge of this number.
    fn edge(&self, e: u32) -> Edge
        requires { IsEdge (length (edges self.now)) e }
        ensures { result ≡ edge_at (edges self.now) e };

    /// The cell of a dart's wing, as its row has it.
    fn wing_cell(&self, dart: Dart) -> Cell<'a>
        requires few { length (edges self.now) < 2 ^ 24 }
        requires wings { HaveWings (length (edges self.now)) (edges self.now) }
        requires edge { IsEdge (length (edges self.now)) dart.edge }
        ensures { view result ≡ wing_value self.now dart };
}

impl<'a> WingedEdges<'a> for Vec<Edge> {
    ghost use Rattle.vpf_wing.specs.Wings.{number_cell};

    ghost edges = { λ edges. edges.items };

    ghost wing_value = { λ edges. number_cell edges.items };

    fn len(&self) -> u32 {
        self.as_slice().len() as u32
    }

    fn edge(&self, e: u32) -> Edge {
        self[e as usize - 1]
    }

    #[tactic(auto, using(crate::proofs::WingLemmas::wing_among), unfolding(crate::specs::Nexts::wing))]
    fn wing_cell(&self, dart: Dart) -> Cell<'a> {
        let wing = wing_in(self.edge(dart.edge), dart.minus);
        Cell::Long(wing as i32)
    }
}
