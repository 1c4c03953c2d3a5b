//! Tables of edges that are written like others.

ghost use Rattle.std.specs.Prelude.{◌≡◌, ◌<◌, ◌^◌, List, map};
ghost use Rattle.vpf_head.specs.Head.{Col};
ghost use Rattle.vpf_write.specs.Revise.Revising.{new_value};
ghost use Rattle.vpf_primitive_tables.specs.TableForms.Forms.{edge_values_of};
ghost use Rattle.vpf_primitive_tables.specs.Inner.TableForms.Models.{values_of_edge};
ghost use Rattle.vpf_primitive_tables.specs.Inner.TableForms.Places.{AreEdgePlaces};

use crate::table_forms::places::EdgePlaces;
use crate::table_forms::rows::{new_cell, new_number};
use std::alloc::{AllocError, Global};
use std::marker::Model;
use vpf_head::Header;
use vpf_table::{RowView, TableView};
use vpf_triplet::Kind;
use vpf_value::Cell;
use vpf_write::revise::laws::{columns_by_position, numbers_and_ids_fit};
use vpf_write::revise::{NewCell, RevisedTable, with_kinds};

/// The six references of an edge, as cells.
#[derive(Clone, Copy)]
pub struct EdgeCells<'a> {
    /// The node where it begins.
    pub start_node: Cell<'a>,
    /// The node where it ends.
    pub end_node: Cell<'a>,
    /// The face on its right.
    pub right_face: Cell<'a>,
    /// The face on its left.
    pub left_face: Cell<'a>,
    /// The wing of its walk along the right face.
    pub right_edge: Cell<'a>,
    /// The wing of its walk along the left face.
    pub left_edge: Cell<'a>,
}

/// A table of edges that others are written like, with the kind of their references (MIL-STD-2407, 5.2.2, edges): ids become numbers of 4
/// bytes. Contracts see it as the table and the kind.
#[derive(Drop)]
pub struct EdgeForm<'t, 'a> {
    table: &'t TableView<'a>,
    header: Header<'a>,
    references: Kind,
    places: EdgePlaces,
}

impl<'t, 'a> Model for EdgeForm<'t, 'a> {
    ghost use Rattle.vpf_primitive_tables.specs.Inner.TableForms.Models.{EdgesLike};

    ghost Value = { EdgesLike };

    ghost use Rattle.vpf_primitive_tables.specs.Inner.TableForms.Models.{IsEdgeForm, edges_like};

    ghost view = { edges_like };

    ghost invariant = { IsEdgeForm };
}

/// The new cells of an edge: its number, and what it names.
fn new_cells<'a>(places: EdgePlaces, number: u32, references: &EdgeCells<'a>) -> [NewCell<'a>; 7]
    requires { number < 2 ^ 31 }
    ensures { (columns : List Col) → AreEdgePlaces columns places → map new_value result ≡ edge_values_of columns number (values_of_edge references.now) }
{
    [
        new_number(places.id, number),
        new_cell(places.start_node, references.start_node),
        new_cell(places.end_node, references.end_node),
        new_cell(places.right_face, references.right_face),
        new_cell(places.left_face, references.left_face),
        new_cell(places.right_edge, references.right_edge),
        new_cell(places.left_edge, references.left_edge),
    ]
}

impl<'t, 'a> EdgeForm<'t, 'a> {
    ghost use Rattle.std.specs.Prelude.{◌≡◌, ◌<◌, ◌^◌, ◌++◌, ◌∷◌, [], List, IfOk, IsTrue, OnOk};
    ghost use Rattle.vpf_head.specs.Head.{names_rows};
    ghost use Rattle.vpf_table.specs.Grid.{Row};
    ghost use Rattle.vpf_write.specs.Inner.Tallies.{Holds};
    ghost use Rattle.vpf_write.specs.Revise.Revising.{FitsElsewhere, revised};
    ghost use Rattle.vpf_prims.specs.Roles.{edge_roles};
    ghost use Rattle.vpf_prims.specs.Suiting.{HasRoles};
    ghost use Rattle.vpf_primitive_tables.specs.TableForms.Forms.{AreOfKind, edge_kinds_of, edge_values_of, head_like};
    ghost use Rattle.vpf_primitive_tables.specs.Inner.TableForms.Models.{values_of_edge};

    /// How tables of edges are written like this one, with references of a kind that can name rows. Fails where memory for the header runs out.
    pub fn new(table: &'t TableView<'a>, references: Kind) -> Result<EdgeForm<'t, 'a>, AllocError>
        requires roles { HasRoles edge_roles table.now }
        requires kind { IsTrue (names_rows references) }
        ensures { IfOk result (λ form. form ≡ record { table = table.now; references = references }) }
    {
        let places = EdgePlaces::of(table);
        let header = with_kinds(table.header(), &places.kinds(references))?;
        Ok(EdgeForm {
            table,
            header,
            references,
            places,
        })
    }

    /// The table that others are written like.
    pub fn table(&self) -> &'t TableView<'a>
        ensures { result.now ≡ self.now.table }
    {
        self.table
    }

    /// The header of tables that are written like it.
    pub fn header(&self) -> &Header<'a>
        ensures { result.now ≡ head_like self.now.table (edge_kinds_of self.now.references) }
    {
        &self.header
    }

    /// A table with this header, without rows so far.
    pub fn begin(&self, alloc: Global) -> Result<RevisedTable<'_, 'a, 'a>, AllocError>
        ensures head { IfOk result (λ made. made.head ≡ head_like self.now.table (edge_kinds_of self.now.references)) }
        ensures holds { IfOk result (λ made. Holds made []) }
    {
        RevisedTable::new(alloc, &self.header)
    }

    /// Appends the row of an edge with its number and what it names. Fails only where memory runs out.
    pub fn put(
        &self,
        made: &mut RevisedTable<'_, '_, 'a>,
        number: u32,
        row: &RowView<'_, 'a>,
        references: &EdgeCells<'a>,
    ) -> Result<(), AllocError>
        requires head { made.old.head ≡ head_like self.now.table (edge_kinds_of self.now.references) }
        requires number { number < 2 ^ 31 }
        requires references { AreOfKind self.now.references (values_of_edge references.now) }
        // Each other cell fits its column.
        requires others { FitsElsewhere (edge_values_of self.now.table.head.columns number (values_of_edge references.now)) made.old.head.columns row.now }
        ensures head { made.new.head ≡ made.old.head }
        ensures put { OnOk result ((rows : List Row) → Holds made.old rows → Holds made.new
            (rows ++ revised (edge_values_of self.now.table.head.columns number (values_of_edge references.now)) row.now ∷ [])) }
    {
        columns_by_position();
        numbers_and_ids_fit();
        made.put(row, &new_cells(self.places, number, references))
    }
}
