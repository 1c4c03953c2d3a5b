//! Finding the columns that have a role.

ghost use Rattle.std.specs.Prelude.{◌≡◌, ◌<◌, All, IfOk, IfSome, length, map};
ghost use Rattle.vpf_table.specs.Head.{place_of};
ghost use Rattle.vpf_table.specs.Findings.{column_name, disagreement_of, sight_of};
ghost use Rattle.vpf_table.specs.Firsts.{Finds, Tells};
ghost use Rattle.vpf_prims.specs.Roles.{role_of};
ghost use Rattle.vpf_prims.specs.Columns.{IsWithin, role_line, columns_finding, in_table, role_at, role_column};

use crate::roles::Role;
use std::alloc::Global;
use vpf_table::findings::{ColumnAt, FindError, Finding, Seen, SeenWord, TableName};
use vpf_table::head::{Column, Header};
use vpf_triplet::Kind;

/// A table that is looked at: where its findings are.
#[derive(Clone, Copy, Debug, PartialEq, Eq)]
pub struct TableAt {
    /// The tile, 0 where the coverage is untiled.
    pub tile: u32,
    /// Which table it is.
    pub table: TableName,
    /// The position of its file in the list of files that were read, from 0.
    pub file: u32,
}

impl TableAt {
    /// A finding in the table: in a row, from 1, or 0 for the table as a whole.
    pub fn finding<'a>(
        self,
        rule: u8,
        row: u32,
        column: ColumnAt<'a>,
        found: Seen<'a>,
        wanted: Seen<'a>,
    ) -> Finding<'a>
        ensures { disagreement_of result ≡ in_table self rule row (column_name column.entry) (sight_of found.entry) (sight_of wanted.entry) }
    {
        Finding {
            rule,
            tile: self.tile,
            table: self.table,
            file: self.file,
            row,
            column,
            found,
            wanted,
        }
    }
}

/// A column that has a role.
#[derive(Clone, Copy, Debug)]
pub struct RoleColumn<'a> {
    /// Where it stands, from 0, or None where it is absent.
    pub place: Option<usize>,
    /// Its name as the header spells it, or the name of the role where it is absent.
    pub name: ColumnAt<'a>,
    /// What its cells hold: nothing, X, where it is absent.
    pub kind: Kind,
}

/// Where the column of a name stands.
fn place_of(header: &Header<'_>, name: &[u8]) -> Option<usize>
    ensures value { result ≡ place_of name.now header.now.columns }
    ensures within { IfSome result (λ c. c < length header.now.columns) }
{
    let _columns = header.len();
    header.column(name)
}

/// The column of a role, and the finding on it.
pub fn place_role<'a>(
    at: TableAt,
    header: &Header<'a>,
    role: &Role,
) -> Result<RoleColumn<'a>, Finding<'a>>
    ensures first { Finds result (role_line at header.now.columns (role_of role.now)) }
    ensures column { IfOk result (λ column. role_at column ≡ role_column header.now.columns (role_of role.now)) }
    ensures within { IfOk result (λ column. IsWithin (length header.now.columns) (role_at column)) }
{
    let wanted = Seen::Word(role.wants.word());
    let Some(place) = place_of(header, role.name) else {
        let name = ColumnAt::new(role.name);
        if !role.optional {
            return Err(at.finding(1, 0, name, Seen::Word(SeenWord::Absent), wanted));
        }
        return Ok(RoleColumn {
            place: None,
            name,
            kind: Kind::X,
        });
    };
    let column = header.at(place);
    let name = ColumnAt::new(column.name);
    if !role.wants.suits(column.kind) {
        let found = Seen::Kind(column.kind, column.count);
        return Err(at.finding(1, 0, name, found, wanted));
    }
    Ok(RoleColumn {
        place: Some(place),
        name,
        kind: column.kind,
    })
}

/// The columns of these roles in a header, in the order of the roles. The first role whose column is absent, where it may not
/// be, or of another kind is the finding.
pub fn place_roles<'a>(
    alloc: Global,
    at: TableAt,
    header: &Header<'a>,
    roles: &[Role],
) -> Result<Vec<RoleColumn<'a>>, FindError<'a>>
    ensures first { Tells result (columns_finding at header.now.columns (map role_of roles.now)) }
    ensures columns { IfOk result (λ columns. map role_at columns.items ≡ map (role_column header.now.columns) (map role_of roles.now)) }
    ensures within { IfOk result (λ columns. All (λ column. IsWithin (length header.now.columns) (role_at column)) columns.items) }
{
    let mut columns = Vec::with_capacity(alloc, roles.len())?;
    for role in roles {
        columns.push(place_role(at, header, role)?)?;
    }
    Ok(columns)
}
