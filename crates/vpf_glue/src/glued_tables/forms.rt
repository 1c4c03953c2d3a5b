//! The primitive tables that those of the glued coverage are written like.

ghost use Rattle.std.specs.Prelude.{◌≡◌, IfOk, IsSome, Some, codes};
ghost use Rattle.std.specs.Option.{option_copied, option_map};
ghost use Rattle.vpf_triplet.specs.declared.kinds.Kind.TheVariants.{I};
ghost use Rattle.vpf_table.specs.Grid.{Grid};
ghost use Rattle.vpf_prims.specs.Roles.{entity_roles};
ghost use Rattle.vpf_prims.specs.Suiting.{HasColumns, HasRoles};
ghost use Rattle.vpf_prims.specs.Tables.{table_named};
ghost use Rattle.vpf_primitive_tables.specs.Inner.TableForms.Models.{PairsLike};

use std::alloc::AllocError;
use vpf_findings::TableName;
use vpf_primitive_tables::table_forms::{EdgeForm, PairForm, RingForm};
use vpf_prims::Tile;
use vpf_table::TableView;
use vpf_triplet::Kind;

/// How the primitive tables of the glued coverage are written: like those of the first tile that has tables, and like the first table of
/// entity nodes, where there is one (MIL-STD-2407, 5.2.2, primitives). Ids and references become numbers of 4 bytes, those of edges too.
/// Each table is begun by its form and written row by row, from rows of all tiles; its rows take no memory but for their bytes.
#[derive(Drop)]
pub struct GluedForms<'t, 'a> {
    /// Edges, `edg`.
    pub edg: EdgeForm<'t, 'a>,
    /// Faces with their first rings, `fac`.
    pub fac: PairForm<'t, 'a>,
    /// Rings, `rng`.
    pub rng: RingForm<'t, 'a>,
    /// Connected nodes with their first edges, `cnd`.
    pub cnd: PairForm<'t, 'a>,
    /// Entity nodes with their faces, `end`, where there is a table of them.
    pub end: Option<PairForm<'t, 'a>>,
}

/// The table of this name, which each tile has.
fn table_of<'t, 'a>(tile: &'t Tile<'a>, name: TableName) -> &'t TableView<'a>
    requires { IsSome (table_named tile.now name) }
    ensures { table_named tile.now name ≡ Some result.now }
{
    match tile.table(name) {
        Some(table) => table,
        None => unreachable!(),
    }
}

/// How a table of entity nodes is written, where there is one.
fn entities_like<'t, 'a>(
    end: Option<&'t TableView<'a>>,
) -> Result<Option<PairForm<'t, 'a>>, AllocError>
    requires { (grid : Grid) → option_copied end ≡ Some grid → HasRoles entity_roles grid }
    ensures { IfOk result (λ form. form ≡ option_map (λ table. record { table = table; name = codes "containing_face" }) (option_copied end.entry)) }
{
    match end {
        Some(table) => Ok(Some(PairForm::new(table, b"containing_face")?)),
        None => Ok(None),
    }
}

impl<'t, 'a> GluedForms<'t, 'a> {
    /// How tables are written like those of this tile, and like this table of entity nodes. Fails where memory for their headers runs out.
    pub fn new(
        first: &'t Tile<'a>,
        end: Option<&'t TableView<'a>>,
    ) -> Result<GluedForms<'t, 'a>, AllocError>
        requires columns { HasColumns first.now.tables }
        requires entities { (grid : Grid) → option_copied end ≡ Some grid → HasRoles entity_roles grid }
        ensures edg { IfOk result (λ forms. forms.edg ≡ record { table = first.now.tables.edg; references = I }) }
        ensures fac { IfOk result (λ forms. forms.fac ≡ record { table = first.now.tables.fac; name = codes "ring_ptr" }) }
        ensures rng { IfOk result (λ forms. forms.rng ≡ first.now.tables.rng) }
        ensures cnd { IfOk result (λ forms. forms.cnd ≡ record { table = first.now.tables.cnd; name = codes "first_edge" }) }
        ensures end { IfOk result (λ forms. forms.end
            ≡ option_map (λ table. record { table = table; name = codes "containing_face" }) (option_copied end.entry)) }
    {
        Ok(GluedForms {
            edg: EdgeForm::new(table_of(first, TableName::Edg), Kind::I)?,
            fac: PairForm::new(table_of(first, TableName::Fac), b"ring_ptr")?,
            rng: RingForm::new(table_of(first, TableName::Rng))?,
            cnd: PairForm::new(table_of(first, TableName::Cnd), b"first_edge")?,
            end: entities_like(end)?,
        })
    }
}
