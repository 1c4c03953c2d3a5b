//! What is so of the features of every coverage.

ghost use Rattle.vpf_feature_files.specs.Inner.Laws.{ClassSchemasDecide, HeldSchemaIsRead, ReadSchemaIsHeld};

use vpf_table::laws as tables;
use vpf_theme::laws as themes;

/// There is no finding on a table exactly where it is a schema table: its columns are there, and hold text.
pub fn class_schemas_decide()
    ensures { ClassSchemasDecide }
{}

/// The features of a coverage are read exactly where the tree holds them within the limits.
pub fn features_are_held()
    ensures held { HeldSchemaIsRead }
    ensures read { ReadSchemaIsHeld }
{
    tables::spelled_is_opened();
    tables::opened_is_spelled();
    tables::opened_is_read();
    themes::spelled_is_read();
    themes::read_is_spelled();
    class_schemas_decide();
}
