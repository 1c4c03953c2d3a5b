//! Findings as printed text.

ghost use Rattle.std.specs.Prelude.{◌≡◌, ◌++◌, OnOk, string_bytes};
ghost use Rattle.vpf_findings.specs.Findings.{disagreement_of};
ghost use Rattle.vpf_findings.specs.Printing.{disagree_text, where_text};

use crate::finding::{ColumnAt, Finding, Seen, SeenWord};
use crate::text::{CellText, Printed};
use std::alloc::AllocError;
use std::fmt;

impl fmt::Display for SeenWord {
    ghost use Rattle.std.specs.Prelude.{Some};
    ghost use Rattle.vpf_findings.specs.Printing.{seen_word_text};

    ghost output = { λ word. Some (seen_word_text word) };

    fn fmt<W: fmt::Write>(&self, f: &mut fmt::Formatter<W>) -> fmt::Result {
        f.write_str(match self {
            SeenWord::Absent => "none",
            SeenWord::Number => "number",
            SeenWord::Reference => "reference",
            SeenWord::Mark => "mark",
            SeenWord::Text => "text",
            SeenWord::Path => "path",
            SeenWord::Plain => "plain",
            SeenWord::Tile => "tile",
            SeenWord::Inside => "inside",
            SeenWord::Other => "other",
            SeenWord::Dart => "dart",
            SeenWord::Node => "node",
            SeenWord::Sign => "sign",
        })
    }
}

/// The name with its plain bytes as themselves, and each other byte as a backslash and its two digits of base 16.
impl fmt::Display for ColumnAt<'_> {
    ghost use Rattle.std.specs.Prelude.{Some};
    ghost use Rattle.vpf_findings.specs.Text.Bytes.{printed};
    ghost use Rattle.vpf_findings.specs.Findings.{column_name};

    ghost output = { λ c. Some (printed (column_name c)) };

    fn fmt<W: fmt::Write>(&self, f: &mut fmt::Formatter<W>) -> fmt::Result {
        Printed(self.as_slice()).fmt(f)
    }
}

/// A cell as its table shows it, a range as `1 to 4`, a kind with its count as `I,1`, a dart with its tile where it has one.
impl fmt::Display for Seen<'_> {
    ghost use Rattle.std.specs.Prelude.{Some};
    ghost use Rattle.vpf_findings.specs.Findings.{sight_of};
    ghost use Rattle.vpf_findings.specs.Printing.{sight_text};

    ghost output = { λ seen. Some (sight_text (sight_of seen)) };

    fn fmt<W: fmt::Write>(&self, f: &mut fmt::Formatter<W>) -> fmt::Result {
        match *self {
            Seen::Number(n) => write!(f, "{n}"),
            Seen::Cell(kind, cell) => CellText { kind, cell }.fmt(f),
            Seen::Kind(kind, count) => write!(f, "{kind},{count}"),
            Seen::Range(low, high) => write!(f, "{low} to {high}"),
            Seen::Dart(dart) => dart.fmt(f),
            Seen::Word(word) => word.fmt(f),
        }
    }
}

/// The finding without the name of its file: `disagree RULE row K COLUMN: FOUND, WANTED`.
impl fmt::Display for Finding<'_> {
    ghost use Rattle.std.specs.Prelude.{Some};
    ghost use Rattle.vpf_findings.specs.Findings.{disagreement_of};
    ghost use Rattle.vpf_findings.specs.Printing.{unnamed_text};

    ghost output = { λ f. Some (unnamed_text (disagreement_of f)) };

    fn fmt<W: fmt::Write>(&self, f: &mut fmt::Formatter<W>) -> fmt::Result {
        let rule = self.rule;
        let row = self.row;
        let column = self.column;
        let found = self.found;
        let wanted = self.wanted;
        write!(f, "disagree {rule} row {row} {column}: {found}, {wanted}")
    }
}

/// Puts the beginning of the line of a finding: the rule, the name of its file, the row and the column.
pub(crate) fn put_where(
    text: &mut String,
    rule: u8,
    name: &str,
    row: u32,
    column: &[u8],
) -> Result<(), AllocError>
    ensures { OnOk result (string_bytes text.new ≡ string_bytes text.old ++ where_text rule name.now row column.now) }
{
    let name = Printed(name.as_bytes());
    let column = Printed(column);
    write!(text, "disagree {rule} {name} row {row} {column}")
}

/// Puts the line of a finding in the file of this name: `disagree RULE NAME row K COLUMN: FOUND, WANTED`. Fails only for
/// want of memory, and then leaves a beginning of the line behind what stood there.
pub fn put_line(text: &mut String, name: &str, finding: &Finding<'_>) -> Result<(), AllocError>
    ensures { OnOk result (string_bytes text.new ≡ string_bytes text.old ++ disagree_text name.now (disagreement_of finding.now)) }
{
    let Finding {
        rule,
        row,
        found,
        wanted,
        ..
    } = *finding;
    put_where(text, rule, name, row, finding.column.as_slice())?;
    write!(text, ": {found}, {wanted}\n")
}
