//! The columns without a role: rings have none, and those of other tables are the same in all tiles.

ghost use Rattle.std.specs.Prelude.{◌≡◌, map, option_map};
ghost use Rattle.std.specs.List.{list_any};
ghost use Rattle.vpf_head.specs.Folding.{same_name};
ghost use Rattle.vpf_head.specs.Inner.Views.{col};
ghost use Rattle.vpf_findings.specs.Firsts.{Finds};
ghost use Rattle.vpf_prims.specs.Roles.{role_of};
ghost use Rattle.vpf_prims.specs.Suiting.{carried_columns};
ghost use Rattle.vpf_numbers.specs.Around.{columns_in_view};
ghost use Rattle.vpf_numbers.specs.ColumnLines.{bare_line, beside_finding, carried_columns_finding, carried_lines, form_line, lacking_finding};

use crate::columns::{check_named, column_of, form_seen, is_same_form};
use vpf_findings::{ColumnAt, Finding, Seen, SeenWord};
use vpf_head::{Column, Header};
use vpf_prims::{Role, TableAt};

/// Whether two names are one, in any case.
fn is_same_name(name: &[u8], other: &[u8]) -> bool
    ensures { result ≡ same_name name.now other.now }
{
    name.eq_ignore_ascii_case(other)
}

/// Whether the column of this name has one of these roles.
fn has_role(roles: &[Role], name: &[u8]) -> bool
    ensures { result ≡ list_any (λ role. same_name role.name name.now) (map role_of roles.now) }
{
    for role in roles {
        if is_same_name(role.name, name) {
            return true;
        }
    }
    false
}

/// The first column without one of these roles is a finding.
pub(crate) fn check_bare<'a>(
    at: TableAt,
    header: &Header<'a>,
    roles: &[Role],
) -> Result<(), Finding<'a>>
    ensures { Finds result (bare_line at (carried_columns (map role_of roles.now) header.now.columns)) }
{
    for c in 0..header.len() {
        let column = header.at(c);
        if !has_role(roles, column.name) {
            let name = ColumnAt::new(column.name);
            let absent = Seen::Word(SeenWord::Absent);
            return Err(at.finding(1, 0, name, form_seen(column), absent));
        }
    }
    Ok(())
}

/// A column is of the kind and count of the one there.
fn check_form<'a>(
    at: TableAt,
    column: &Column<'a>,
    there: Option<&Column<'a>>,
) -> Result<(), Finding<'a>>
    ensures { Finds result (form_line at (col column.now) (option_map (λ other. col other.now) there.entry)) }
{
    let Some(other) = there else {
        return Ok(());
    };
    if is_same_form(column, other) {
        return Ok(());
    }
    let name = ColumnAt::new(column.name);
    Err(at.finding(1, 0, name, form_seen(column), form_seen(other)))
}

/// A column stands here as it does there, and is of the same kind and count.
fn check_carried_column<'a>(
    at: TableAt,
    header: &Header<'a>,
    there: &Header<'a>,
    column: &Column<'a>,
) -> Result<(), Finding<'a>>
    ensures { Finds result (carried_lines at header.now.columns there.now.columns (col column.now)) }
{
    check_named(at, header, there, column.name)?;
    check_form(at, column, column_of(there, column.name))
}

/// The columns without a role, one after another, are those there.
fn check_carried<'a>(
    at: TableAt,
    header: &Header<'a>,
    there: &Header<'a>,
    roles: &[Role],
) -> Result<(), Finding<'a>>
    ensures { Finds result (carried_columns_finding at header.now.columns there.now.columns (carried_columns (map role_of roles.now) header.now.columns)) }
{
    for c in 0..header.len() {
        let column = header.at(c);
        if has_role(roles, column.name) {
            continue;
        }
        check_carried_column(at, header, there, column)?;
    }
    Ok(())
}

/// The columns there without a role are here.
fn check_lacking<'a>(
    at: TableAt,
    header: &Header<'a>,
    there: &Header<'a>,
    roles: &[Role],
) -> Result<(), Finding<'a>>
    ensures { Finds result (lacking_finding at header.now.columns there.now.columns (carried_columns (map role_of roles.now) there.now.columns)) }
{
    for c in 0..there.len() {
        let column = there.at(c);
        if has_role(roles, column.name) {
            continue;
        }
        check_named(at, header, there, column.name)?;
    }
    Ok(())
}

/// The columns without a role are those of the header that this one is to be like.
pub(crate) fn check_beside<'a>(
    at: TableAt,
    header: &Header<'a>,
    model: Option<&Header<'a>>,
    roles: &[Role],
) -> Result<(), Finding<'a>>
    ensures { Finds result (beside_finding at (map role_of roles.now) header.now.columns (columns_in_view model.entry)) }
{
    match model {
        Some(there) => {
            check_carried(at, header, there, roles)?;
            check_lacking(at, header, there, roles)
        }
        None => Ok(()),
    }
}
