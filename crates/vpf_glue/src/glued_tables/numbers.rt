//! What an edge of the glued coverage names.

ghost use Rattle.std.specs.Prelude.{◌≡◌};
ghost use Rattle.vpf_triplet.specs.declared.kinds.Kind.TheVariants.{I};
ghost use Rattle.vpf_prims.specs.Primitives.{EdgePrimitive};
ghost use Rattle.vpf_primitive_tables.specs.TableForms.Forms.{AreOfKind};
ghost use Rattle.vpf_primitive_tables.specs.Inner.TableForms.Models.{values_of_edge};
ghost use Rattle.vpf_glue.specs.GluedTables.Grids.{number_values};
ghost use Rattle.vpf_glue.specs.Inner.GluedTables.Numbers.{AreSmall, row_numbers};

use vpf_primitive_tables::table_forms::{EdgeCells, number_cell};
use vpf_write::revise::laws::numbers_and_ids_fit;

/// What an edge names, each by its number in the glued coverage.
#[derive(Clone, Copy, Debug, PartialEq, Eq)]
pub struct EdgeNumbers {
    /// The node where it begins.
    pub start_node: u32,
    /// The node where it ends.
    pub end_node: u32,
    /// The face on its right.
    pub right_face: u32,
    /// The face on its left.
    pub left_face: u32,
    /// The next edge of the walk along its right face.
    pub right_edge: u32,
    /// The next edge of the walk along its left face.
    pub left_edge: u32,
}

impl EdgeNumbers {
    /// The numbers as cells of 4 bytes.
    pub fn cells<'a>(self) -> EdgeCells<'a>
        requires { AreSmall self }
        ensures values { (e : EdgePrimitive) → self ≡ row_numbers e → values_of_edge result ≡ number_values e }
        ensures fits { AreOfKind I (values_of_edge result) }
    {
        numbers_and_ids_fit();
        EdgeCells {
            start_node: number_cell(self.start_node),
            end_node: number_cell(self.end_node),
            right_face: number_cell(self.right_face),
            left_face: number_cell(self.left_face),
            right_edge: number_cell(self.right_edge),
            left_edge: number_cell(self.left_edge),
        }
    }
}
