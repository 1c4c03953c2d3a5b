//! The columns of a plan.

ghost use Rattle.std.specs.Prelude.{◌≡◌, IfOk, codes, length};
ghost use Rattle.vpf_findings.specs.Firsts.{Finds};
ghost use Rattle.vpf_prims.specs.Columns.{columns_finding};
ghost use Rattle.vpf_prims.specs.Inner.Placed.{IsColumnOf};
ghost use Rattle.vpf_prims.specs.Roles.{number_role, plan_roles, role_of};
ghost use Rattle.vpf_tiling.specs.Plan.Plans.{plan_at};

use vpf_findings::{Finding, TableName};
use vpf_head::Header;
use vpf_prims::{Role, RoleColumn, TableAt, place_role, plan_roles};

/// Where the findings are: in no tile, and in the file in hand.
const PLAN: TableAt = TableAt {
    tile: 0,
    table: TableName::Plan,
    file: 0,
};

/// The columns of a plan.
#[derive(Clone, Copy, Debug)]
pub(crate) struct PlanColumns<'a> {
    /// The ids, which name faces.
    pub(crate) id: RoleColumn<'a>,
    /// The numbers of tiles.
    pub(crate) tile: RoleColumn<'a>,
}

/// The roles of ids and of tiles.
fn roles() -> (&'static Role, &'static Role)
    ensures id { role_of result.0.now ≡ number_role (codes "id") }
    ensures tile { role_of result.1.now ≡ number_role (codes "tile_id") }
{
    let [id, tile] = plan_roles() else {
        unreachable!()
    };
    (id, tile)
}

impl<'a> PlanColumns<'a> {
    /// The columns in a header, or the first finding on them.
    pub(crate) fn place(header: &Header<'a>) -> Result<PlanColumns<'a>, Finding<'a>>
        ensures first { Finds result (columns_finding plan_at header.now.columns plan_roles) }
        ensures id { IfOk result (λ columns. IsColumnOf header.now.columns (number_role (codes "id")) columns.id) }
        ensures tile { IfOk result (λ columns. IsColumnOf header.now.columns (number_role (codes "tile_id")) columns.tile) }
    {
        let (id_role, tile_role) = roles();
        let id = place_role(PLAN, header, id_role)?;
        let tile = place_role(PLAN, header, tile_role)?;
        Ok(PlanColumns { id, tile })
    }
}
