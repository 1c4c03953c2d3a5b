//! The replies where there are no features to be told of.

ghost use Rattle.std.specs.Prelude.{◌≡◌, IfOk};
ghost use Rattle.vpf_value.specs.Values.{view};
ghost use Rattle.vpf_findings.specs.Findings.{disagreement_of};
ghost use Rattle.vpf_findings.specs.Printing.{disagree_text};
ghost use Rattle.vpf_library_files.specs.Loading.Loading.{within};
ghost use Rattle.vpf_feature_commands.specs.Classes.Lacks.{lack_seen};
ghost use Rattle.vpf_replies.specs.Answer.{refused};
ghost use Rattle.vpf_replies.specs.Selecting.{wrong_row_text};
ghost use Rattle.vpf_feature_commands.specs.Select.{IsLackAnswer};

use crate::classes::FeatureError;
use crate::requesting::SelectRequest;
use std::alloc::{AllocError, Global};
use vpf_findings::Finding;
use vpf_library_files::loading::within;
use vpf_replies::{Refusal, Reply, disagreement, refuse, wrong_row};
use vpf_select::Value;
use vpf_source::Name;
use vpf_triplet::Kind;
use vpf_value::Cell;

/// The reply to a finding on a thematic index, whose file is named in the folder of the coverage.
fn unfit(
    alloc: Global,
    folder: &str,
    file: &Name,
    finding: &Finding<'_>,
) -> Result<Reply, AllocError>
    ensures { IfOk result (λ reply. reply ≡ refused (disagree_text (within folder.now file.now) (disagreement_of finding.now))) }
{
    let name = within(alloc, folder, file.as_str())?;
    disagreement(alloc, name.as_str(), finding)
}

/// The reply to a row that a thematic index lists for a value which its cell isn't.
fn wrong(
    alloc: Global,
    folder: &str,
    file: &Name,
    kind: Kind,
    row: u32,
    cell: &Cell<'_>,
    value: &Value,
) -> Result<Reply, AllocError>
    ensures { IfOk result (λ reply. reply ≡ refused (wrong_row_text (within folder.now file.now) kind row (view cell.now) value.now)) }
{
    let name = within(alloc, folder, file.as_str())?;
    wrong_row(alloc, name.as_str(), kind, row, cell, &value.cell())
}

/// The reply to why there are no features to be told of. The thematic indexes are named in this folder, that of the coverage.
pub(crate) fn lacking(
    alloc: Global,
    folder: &str,
    request: &SelectRequest,
    error: FeatureError<'_>,
) -> Result<Reply, AllocError>
    ensures { IfOk result (IsLackAnswer folder.now request.now (lack_seen error.entry)) }
{
    match error {
        FeatureError::NoClass => refuse(alloc, Refusal::NoClass(request.class.as_slice())),
        FeatureError::NoTable => refuse(alloc, Refusal::NoTable(request.class.as_slice())),
        FeatureError::NoColumn(name) => refuse(alloc, Refusal::NoColumn(&name)),
        FeatureError::Unfit(file, finding) => unfit(alloc, folder, file, &finding),
        FeatureError::BadValue => refuse(alloc, Refusal::BadValue(request.column.as_slice())),
        FeatureError::Wrong {
            file,
            kind,
            row,
            cell,
            value,
        } => wrong(alloc, folder, file, kind, row, &cell, &value),
        FeatureError::NoMemory => Err(AllocError),
    }
}
