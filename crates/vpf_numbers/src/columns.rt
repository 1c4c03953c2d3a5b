//! Columns at their places, next to those of another table.

ghost use Rattle.std.specs.Prelude.{◌≡◌, ◌<◌, IfOk, IfSome, length, map, option_map};
ghost use Rattle.std.specs.Option.{option_and_then};
ghost use Rattle.std.specs.Prelude.{◌&&◌, slice_get};
ghost use Rattle.vpf_triplet.specs.Kinds.{same_kind};
ghost use Rattle.vpf_head.specs.Making.{same_count};
ghost use Rattle.vpf_head.specs.Inner.Views.{col};
ghost use Rattle.vpf_findings.specs.Findings.{sight_of};
ghost use Rattle.vpf_findings.specs.Firsts.{Finds};
ghost use Rattle.vpf_prims.specs.Columns.{column_of};
ghost use Rattle.vpf_prims.specs.Inner.Placed.{IsColumnOf};
ghost use Rattle.vpf_prims.specs.Roles.{role_of};
ghost use Rattle.vpf_numbers.specs.Around.{columns_in_view};
ghost use Rattle.vpf_numbers.specs.ColumnLines.{form_seen, like_line, moved_line, named_line, role_lines, roles_finding};

use vpf_findings::{ColumnAt, Finding, Seen, SeenWord};
use vpf_head::{Column, Header};
use vpf_prims::{Role, RoleColumn, TableAt, place_role};

/// What a column holds, as it is shown.
pub(crate) fn form_seen<'a>(column: &Column<'a>) -> Seen<'a>
    ensures { sight_of result ≡ form_seen (col column.now) }
{
    Seen::Kind(column.kind, column.count)
}

/// The column at a place, where there is one.
fn column_at<'h, 'a>(header: &'h Header<'a>, place: Option<usize>) -> Option<&'h Column<'a>>
    requires { IfSome place (λ c. c < length header.now.columns) }
    ensures { option_map (λ column. col column.now) result ≡ option_and_then (slice_get header.now.columns) place }
{
    Some(header.at(place?))
}

/// The column of this name, in any case.
pub(crate) fn column_of<'h, 'a>(header: &'h Header<'a>, name: &[u8]) -> Option<&'h Column<'a>>
    ensures { option_map (λ column. col column.now) result ≡ column_of header.now.columns name.now }
{
    column_at(header, header.column(name))
}

/// A column stands here as it does there, at the same place or in neither.
fn check_moved<'a>(
    at: TableAt,
    name: &'a [u8],
    here: Option<&Column<'a>>,
    there: Option<&Column<'a>>,
    same: bool,
) -> Result<(), Finding<'a>>
    ensures { Finds result (moved_line at name.now (option_map (λ column. col column.now) here.entry) (option_map
        (λ column. col column.now) there.entry) same) }
{
    let absent = Seen::Word(SeenWord::Absent);
    match (here, there) {
        (None, None) => Ok(()),
        (None, Some(column)) => Err(at.finding(
            1,
            0,
            ColumnAt::new(name),
            absent,
            form_seen(column),
        )),
        (Some(_), _) if same => Ok(()),
        (Some(column), _) => {
            let name = ColumnAt::new(column.name);
            Err(at.finding(1, 0, name, form_seen(column), absent))
        }
    }
}

/// The column of this name stands in the one header as it does in the other.
pub(crate) fn check_named<'a>(
    at: TableAt,
    header: &Header<'a>,
    there: &Header<'a>,
    name: &'a [u8],
) -> Result<(), Finding<'a>>
    ensures { Finds result (named_line at header.now.columns there.now.columns name.now) }
{
    let same = header.column(name) == there.column(name);
    check_moved(
        at,
        name,
        column_of(header, name),
        column_of(there, name),
        same,
    )
}

/// The same where there is something to be like.
fn check_like<'a>(
    at: TableAt,
    header: &Header<'a>,
    model: Option<&Header<'a>>,
    name: &'a [u8],
) -> Result<(), Finding<'a>>
    ensures { Finds result (like_line at header.now.columns (columns_in_view model.entry) name.now) }
{
    match model {
        Some(there) => check_named(at, header, there, name),
        None => Ok(()),
    }
}

/// The column of a role, which stands as it does in the header that this one is to be like.
pub(crate) fn check_role<'a>(
    at: TableAt,
    header: &Header<'a>,
    model: Option<&Header<'a>>,
    role: &Role,
) -> Result<RoleColumn<'a>, Finding<'a>>
    ensures first { Finds result (role_lines at header.now.columns (columns_in_view model.entry) (role_of role.now)) }
    ensures column { IfOk result (IsColumnOf header.now.columns (role_of role.now)) }
{
    let column = place_role(at, header, role)?;
    check_like(at, header, model, role.name)?;
    Ok(column)
}

/// The columns of these roles, one after another.
pub(crate) fn check_roles<'a>(
    at: TableAt,
    header: &Header<'a>,
    model: Option<&Header<'a>>,
    roles: &[Role],
) -> Result<(), Finding<'a>>
    ensures { Finds result (roles_finding at header.now.columns (columns_in_view model.entry) (map role_of roles.now)) }
{
    for role in roles {
        check_role(at, header, model, role)?;
    }
    Ok(())
}

/// Whether two columns are of one kind and count.
pub(crate) fn is_same_form(column: &Column<'_>, other: &Column<'_>) -> bool
    ensures { result ≡ (same_kind column.now.kind other.now.kind && same_count column.now.count other.now.count) }
{
    column.kind == other.kind && column.count == other.count
}
