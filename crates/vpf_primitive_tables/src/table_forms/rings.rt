//! Tables of rings that are written like others.

ghost use Rattle.std.specs.Prelude.{◌≡◌, ◌<◌, ◌^◌, length, map};
ghost use Rattle.vpf_value.specs.Values.{view};
ghost use Rattle.vpf_primitive_tables.specs.TableForms.Forms.{ring_row};
ghost use Rattle.vpf_primitive_tables.specs.Inner.TableForms.Models.{IsSmallRing};

use crate::table_forms::places::RingPlaces;
use crate::table_forms::rows::number_cell;
use std::alloc::{AllocError, Global};
use std::marker::Model;
use vpf_head::Header;
use vpf_table::TableView;
use vpf_value::Cell;
use vpf_write::revise::laws::{
    columns_by_position, numbers_and_ids_fit, revised_rows_fit, rows_by_position,
};
use vpf_write::revise::with_kinds;
use vpf_write::{TableWriter, WriteError, Written};

/// A table of rings that others are written like (MIL-STD-2407, 5.2.2, rings): ids and references become numbers of 4 bytes, and it has no
/// other columns. Contracts see it as the table.
#[derive(Drop)]
pub struct RingForm<'t, 'a> {
    table: &'t TableView<'a>,
    header: Header<'a>,
    places: RingPlaces,
}

impl<'t, 'a> Model for RingForm<'t, 'a> {
    ghost use Rattle.vpf_table.specs.Grid.{Grid};

    ghost Value = { Grid };

    ghost use Rattle.vpf_primitive_tables.specs.Inner.TableForms.Models.{IsRingForm};

    ghost view = { λ f. f.table.now };

    ghost invariant = { IsRingForm };
}

/// A table of rings that is being written like another one. All rows go through one list of cells. Contracts see the other table, and what
/// they see of a `TableWriter`.
#[derive(Drop)]
pub struct RingTable<'f, 't, 'a> {
    form: &'f RingForm<'t, 'a>,
    writer: TableWriter<'f, 'a>,
    cells: Vec<Cell<'static>>,
}

impl<'f, 't, 'a> Model for RingTable<'f, 't, 'a> {
    ghost use Rattle.vpf_primitive_tables.specs.Inner.TableForms.Models.{RingsPut};

    ghost Value = { RingsPut };

    ghost use Rattle.vpf_primitive_tables.specs.Inner.TableForms.Models.{IsRingTable, rings_put};

    ghost view = { rings_put };

    ghost invariant = { IsRingTable };
}

impl<'t, 'a> RingForm<'t, 'a> {
    ghost use Rattle.std.specs.Prelude.{◌≡◌, ◌<◌, ◌^◌, ◌++◌, ◌∷◌, [], List, IfOk, OnOk, length, map};
    ghost use Rattle.vpf_value.specs.Values.{view};
    ghost use Rattle.vpf_table.specs.Grid.{Row};
    ghost use Rattle.vpf_write.specs.Inner.Tallies.{Holds};
    ghost use Rattle.vpf_prims.specs.Roles.{ring_roles};
    ghost use Rattle.vpf_prims.specs.Suiting.{HasRoles, carried_columns};
    ghost use Rattle.vpf_primitive_tables.specs.TableForms.Forms.{head_like, ring_kinds, ring_row};

    /// How tables of rings are written like this one, which has no other columns. Fails where memory for the header runs out.
    pub fn new(table: &'t TableView<'a>) -> Result<RingForm<'t, 'a>, AllocError>
        requires roles { HasRoles ring_roles table.now }
        requires bare { carried_columns ring_roles table.now.head.columns ≡ [] }
        ensures { IfOk result (λ form. form ≡ table.now) }
    {
        let places = RingPlaces::of(table);
        let header = with_kinds(table.header(), &places.kinds())?;
        Ok(RingForm {
            table,
            header,
            places,
        })
    }

    /// The header of tables that are written like it.
    pub fn header(&self) -> &Header<'a>
        ensures { result.now ≡ head_like self.now ring_kinds }
    {
        &self.header
    }

    /// A table with this header, without rings so far.
    pub fn begin<'f>(&'f self, alloc: Global) -> Result<RingTable<'f, 't, 'a>, AllocError>
        ensures like { IfOk result (λ made. made.like ≡ self.now) }
        ensures holds { IfOk result (λ made. Holds made.tally []) }
    {
        let cells = vec![in alloc; Cell::Null; self.table.header().len()]?;
        let writer = TableWriter::new(alloc, &self.header)?;
        Ok(RingTable {
            form: self,
            writer,
            cells,
        })
    }

    /// Puts the cells of a ring in their places, which are all that there are.
    fn fill(&self, cells: &mut [Cell<'_>], number: u32, face: u32, edge: u32)
        requires width { length cells.old ≡ length self.now.head.columns }
        requires number { number < 2 ^ 31 }
        requires ring { IsSmallRing (record { face = face; edge = edge }) }
        ensures { map view cells.new ≡ ring_row self.now.head.columns number (record { face = face; edge = edge }) }
    {
        rows_by_position();
        // What is so of each header: its names differ.
        let _columns = self.table.header().len();
        cells[self.places.start_edge] = number_cell(edge);
        cells[self.places.face] = number_cell(face);
        cells[self.places.id] = number_cell(number);
    }

    /// Appends the row of a ring.
    fn put(
        &self,
        writer: &mut TableWriter<'_, '_>,
        cells: &mut [Cell<'_>],
        number: u32,
        face: u32,
        edge: u32,
    ) -> Result<(), AllocError>
        requires head { writer.old.head ≡ head_like self.now ring_kinds }
        requires width { length cells.old ≡ length self.now.head.columns }
        requires number { number < 2 ^ 31 }
        requires ring { IsSmallRing (record { face = face; edge = edge }) }
        ensures head { writer.new.head ≡ writer.old.head }
        ensures width { length cells.new ≡ length cells.old }
        ensures put { OnOk result ((rows : List Row) → Holds writer.old rows → Holds writer.new
            (rows ++ ring_row self.now.head.columns number (record { face = face; edge = edge }) ∷ [])) }
    {
        columns_by_position();
        numbers_and_ids_fit();
        revised_rows_fit();
        // What is so of each header: its names differ.
        let _columns = self.table.header().len();
        self.fill(cells, number, face, edge);
        writer.put_row(cells)
    }
}

impl<'f, 't, 'a> RingTable<'f, 't, 'a> {
    ghost use Rattle.std.specs.Prelude.{◌≡◌, ◌<◌, ◌^◌, ◌++◌, ◌∷◌, [], List, OnOk};
    ghost use Rattle.vpf_table.specs.Grid.{Row};
    ghost use Rattle.vpf_write.specs.Inner.Tallies.{Holds};
    ghost use Rattle.vpf_write.specs.Writing.{Writes};
    ghost use Rattle.vpf_primitive_tables.specs.TableForms.Forms.{ring_kinds, ring_row, table_like};
    ghost use Rattle.vpf_primitive_tables.specs.Inner.TableForms.Models.{IsSmallRing};

    /// Appends a ring: its number, the number of its face, and that of the edge where its walk starts. Fails only where memory runs out, and
    /// then each later call does, and `finish`.
    pub fn put(&mut self, number: u32, face: u32, edge: u32) -> Result<(), AllocError>
        requires number { number < 2 ^ 31 }
        requires ring { IsSmallRing (record { face = face; edge = edge }) }
        ensures like { self.new.like ≡ self.old.like }
        ensures put { OnOk result ((rows : List Row) → Holds self.old.tally rows → Holds self.new.tally
            (rows ++ ring_row self.old.like.head.columns number (record { face = face; edge = edge }) ∷ [])) }
    {
        let cells = self.cells.as_mut_slice();
        self.form.put(&mut self.writer, cells, number, face, edge)
    }

    /// The table, or the first limit that its rings pass.
    pub fn finish(self) -> Result<Written, WriteError>
        ensures { (rows : List Row) → Holds self.entry.tally rows → Writes (table_like self.entry.like ring_kinds rows) result }
    {
        self.writer.finish()
    }
}
