//! Findings that hold their own memory.

ghost use Rattle.std.specs.Prelude.{◌≡◌, IfOk};

use crate::finding::{Finding, TableName};
use crate::printing::put_where;
use std::alloc::{AllocError, Global};
use vpf_source::Bytes;

/// A finding that outlives its tables: what was found and wanted is kept as it is printed.
#[derive(Debug, Drop)]
pub struct OwnFinding {
    /// The number of the rule, from 1.
    pub rule: u8,
    /// The tile, 0 where the coverage is untiled.
    pub tile: u32,
    /// The table.
    pub table: TableName,
    /// The position of the table's file in the list of files that were read, from 0.
    pub file: u32,
    /// The row, from 1, or 0 for the table as a whole.
    pub row: u32,
    /// The name of the column.
    pub column: Bytes,
    /// What stands there, as it is printed.
    pub found: Bytes,
    /// What ought to stand there, as it is printed.
    pub wanted: Bytes,
}

impl OwnFinding {
    ghost use Rattle.vpf_findings.specs.Findings.{disagreement_of};
    ghost use Rattle.vpf_findings.specs.Printing.{own_of, own_text};

    /// What a finding holds, with its texts printed. Fails only for want of memory.
    pub fn of(alloc: Global, finding: &Finding<'_>) -> Result<OwnFinding, AllocError>
        ensures { IfOk result (λ own. own ≡ own_of (disagreement_of finding.now)) }
    {
        let column = finding.column.as_slice();
        Ok(OwnFinding {
            rule: finding.rule,
            tile: finding.tile,
            table: finding.table,
            file: finding.file,
            row: finding.row,
            column: Bytes::new(Vec::from_slice(alloc, column)?),
            found: Bytes::new(finding.found.to_string(alloc)?.into_bytes()),
            wanted: Bytes::new(finding.wanted.to_string(alloc)?.into_bytes()),
        })
    }

    /// The line of the finding in the file of this name, the same as that of the finding that it was made of. Fails only
    /// for want of memory.
    pub fn line(&self, alloc: Global, name: &str) -> Result<Bytes, AllocError>
        ensures { IfOk result (λ line. line ≡ own_text name.now self.now) }
    {
        let mut text = String::new(alloc);
        put_where(&mut text, self.rule, name, self.row, self.column.as_slice())?;
        text.push_str(": ")?;
        let mut line = text.into_bytes();
        line.extend_from_slice(self.found.as_slice())?;
        line.extend_from_slice(b", ")?;
        line.extend_from_slice(self.wanted.as_slice())?;
        line.push(b'\n')?;
        Ok(Bytes::new(line))
    }
}
