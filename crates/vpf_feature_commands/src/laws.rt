//! Laws about the answers of `select` alone.

ghost use Rattle.vpf_feature_commands.specs.Plain.{PlainSelections};

use crate::classes::laws::indexes_serve;

/// Where the thematic index of the column that is asked for agrees with it, `select` answers what plain scans give.
pub fn plain_selections()
    ensures { PlainSelections }
{
    indexes_serve();
}
