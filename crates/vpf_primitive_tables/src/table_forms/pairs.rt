//! Tables with one column of references that are written like others: those of faces, of connected nodes and of entity nodes.

ghost use Rattle.std.specs.Prelude.{◌≡◌, ◌<◌, ◌^◌, ℕ, List, map};
ghost use Rattle.vpf_head.specs.Head.{Col};
ghost use Rattle.vpf_write.specs.Revise.Revising.{new_value};
ghost use Rattle.vpf_primitive_tables.specs.TableForms.Forms.{pair_values};
ghost use Rattle.vpf_primitive_tables.specs.Inner.TableForms.Places.{ArePairPlaces};

use crate::table_forms::places::PairPlaces;
use crate::table_forms::rows::new_number;
use std::alloc::{AllocError, Global};
use std::marker::Model;
use vpf_head::Header;
use vpf_table::{RowView, TableView};
use vpf_write::revise::laws::{columns_by_position, numbers_and_ids_fit};
use vpf_write::revise::{NewCell, RevisedTable, with_kinds};

/// A table with one column of references that others are written like (MIL-STD-2407, 5.2.2, primitives): ids and these references become
/// numbers of 4 bytes. Contracts see it as the table and the name of the column.
#[derive(Drop)]
pub struct PairForm<'t, 'a> {
    table: &'t TableView<'a>,
    header: Header<'a>,
    name: &'static [u8],
    places: PairPlaces,
}

impl<'t, 'a> Model for PairForm<'t, 'a> {
    ghost use Rattle.vpf_primitive_tables.specs.Inner.TableForms.Models.{PairsLike};

    ghost Value = { PairsLike };

    ghost use Rattle.vpf_primitive_tables.specs.Inner.TableForms.Models.{IsPairForm, pairs_like};

    ghost view = { pairs_like };

    ghost invariant = { IsPairForm };
}

/// The new cells of a row: its number, and the number that it names.
fn new_cells<'a>(places: PairPlaces, number: u32, reference: u32) -> [NewCell<'a>; 2]
    requires number { number < 2 ^ 31 }
    requires reference { reference < 2 ^ 31 }
    ensures { (name : List ℕ) (columns : List Col) → ArePairPlaces name columns places → map new_value result ≡ pair_values name columns number reference }
{
    [
        new_number(places.id, number),
        new_number(places.reference, reference),
    ]
}

impl<'t, 'a> PairForm<'t, 'a> {
    ghost use Rattle.std.specs.Prelude.{◌≡◌, ◌<◌, ◌^◌, ◌++◌, ◌∷◌, [], List, IfOk, OnOk, codes};
    ghost use Rattle.vpf_table.specs.Grid.{Row};
    ghost use Rattle.vpf_write.specs.Inner.Tallies.{Holds};
    ghost use Rattle.vpf_write.specs.Revise.Revising.{FitsElsewhere, revised};
    ghost use Rattle.vpf_primitive_tables.specs.TableForms.Forms.{head_like, pair_kinds, pair_values};
    ghost use Rattle.vpf_primitive_tables.specs.Inner.TableForms.Places.{NamesRows};

    /// How tables are written like this one, whose column of references has this name. Fails where memory for the header runs out.
    pub fn new(
        table: &'t TableView<'a>,
        name: &'static [u8],
    ) -> Result<PairForm<'t, 'a>, AllocError>
        requires id { NamesRows table.now.head.columns (codes "id") }
        requires reference { NamesRows table.now.head.columns name.now }
        ensures { IfOk result (λ form. form ≡ record { table = table.now; name = name.now }) }
    {
        let places = PairPlaces::of(table.header(), name);
        let header = with_kinds(table.header(), &places.kinds())?;
        Ok(PairForm {
            table,
            header,
            name,
            places,
        })
    }

    /// The table that others are written like.
    pub fn table(&self) -> &'t TableView<'a>
        ensures { result.now ≡ self.now.table }
    {
        self.table
    }

    /// The header of tables that are written like it.
    pub fn header(&self) -> &Header<'a>
        ensures { result.now ≡ head_like self.now.table (pair_kinds self.now.name) }
    {
        &self.header
    }

    /// A table with this header, without rows so far.
    pub fn begin(&self, alloc: Global) -> Result<RevisedTable<'_, 'a, 'a>, AllocError>
        ensures head { IfOk result (λ made. made.head ≡ head_like self.now.table (pair_kinds self.now.name)) }
        ensures holds { IfOk result (λ made. Holds made []) }
    {
        RevisedTable::new(alloc, &self.header)
    }

    /// Appends a row with its number and the number that it names. Fails only where memory runs out.
    pub fn put(
        &self,
        made: &mut RevisedTable<'_, '_, 'a>,
        number: u32,
        row: &RowView<'_, 'a>,
        reference: u32,
    ) -> Result<(), AllocError>
        requires head { made.old.head ≡ head_like self.now.table (pair_kinds self.now.name) }
        requires number { number < 2 ^ 31 }
        requires reference { reference < 2 ^ 31 }
        // Each other cell fits its column.
        requires others { FitsElsewhere (pair_values self.now.name self.now.table.head.columns number reference) made.old.head.columns row.now }
        ensures head { made.new.head ≡ made.old.head }
        ensures put { OnOk result ((rows : List Row) → Holds made.old rows → Holds made.new
            (rows ++ revised (pair_values self.now.name self.now.table.head.columns number reference) row.now ∷ [])) }
    {
        columns_by_position();
        numbers_and_ids_fit();
        made.put(row, &new_cells(self.places, number, reference))
    }
}
