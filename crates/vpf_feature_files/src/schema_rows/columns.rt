//! The columns of a schema table.

ghost use Rattle.std.specs.Prelude.{◌≡◌, IfOk, codes};
ghost use Rattle.vpf_findings.specs.Firsts.{Finds};
ghost use Rattle.vpf_prims.specs.Columns.{columns_finding};
ghost use Rattle.vpf_prims.specs.Inner.Placed.{IsColumnOf};
ghost use Rattle.vpf_prims.specs.Roles.{class_roles, role_of, text_role};
ghost use Rattle.vpf_feature_files.specs.SchemaRows.Joins.{schema_at};

use vpf_findings::{Finding, TableName};
use vpf_head::Header;
use vpf_prims::{Role, RoleColumn, TableAt, class_roles, place_role};

/// Where the findings are: in no tile, and in the file in hand.
const SCHEMA: TableAt = TableAt {
    tile: 0,
    table: TableName::Fcs,
    file: 0,
};

/// The columns of a schema table.
#[derive(Clone, Copy, Debug)]
pub struct SchemaColumns<'a> {
    /// The classes.
    pub(crate) class: RoleColumn<'a>,
    /// The first tables,
    pub(crate) table1: RoleColumn<'a>,
    /// and their columns.
    pub(crate) key1: RoleColumn<'a>,
    /// The second tables,
    pub(crate) table2: RoleColumn<'a>,
    /// and their columns.
    pub(crate) key2: RoleColumn<'a>,
}

/// The roles, in their order.
type Roles = (
    &'static Role,
    &'static Role,
    &'static Role,
    &'static Role,
    &'static Role,
);

/// The roles of a class, of two tables, and of a column of each.
fn roles() -> Roles
    ensures class { role_of result.0.now ≡ text_role (codes "feature_class") }
    ensures table1 { role_of result.1.now ≡ text_role (codes "table1") }
    ensures key1 { role_of result.2.now ≡ text_role (codes "table1_key") }
    ensures table2 { role_of result.3.now ≡ text_role (codes "table2") }
    ensures key2 { role_of result.4.now ≡ text_role (codes "table2_key") }
{
    let [class, table1, key1, table2, key2] = class_roles() else {
        unreachable!()
    };
    (class, table1, key1, table2, key2)
}

impl<'a> SchemaColumns<'a> {
    /// The columns in a header, or the first finding on them: one that is absent, or that holds no text. They are looked for in the order of the
    /// fields, by their names in any case.
    pub fn place(header: &Header<'a>) -> Result<SchemaColumns<'a>, Finding<'a>>
        ensures first { Finds result (columns_finding schema_at header.now.columns class_roles) }
        ensures class { IfOk result (λ columns. IsColumnOf header.now.columns (text_role (codes "feature_class")) columns.class) }
        ensures table1 { IfOk result (λ columns. IsColumnOf header.now.columns (text_role (codes "table1")) columns.table1) }
        ensures key1 { IfOk result (λ columns. IsColumnOf header.now.columns (text_role (codes "table1_key")) columns.key1) }
        ensures table2 { IfOk result (λ columns. IsColumnOf header.now.columns (text_role (codes "table2")) columns.table2) }
        ensures key2 { IfOk result (λ columns. IsColumnOf header.now.columns (text_role (codes "table2_key")) columns.key2) }
    {
        let (class_role, table1_role, key1_role, table2_role, key2_role) = roles();
        let class = place_role(SCHEMA, header, class_role)?;
        let table1 = place_role(SCHEMA, header, table1_role)?;
        let key1 = place_role(SCHEMA, header, key1_role)?;
        let table2 = place_role(SCHEMA, header, table2_role)?;
        let key2 = place_role(SCHEMA, header, key2_role)?;
        Ok(SchemaColumns {
            class,
            table1,
            key1,
            table2,
            key2,
        })
    }
}
