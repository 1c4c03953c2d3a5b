//! Laws about the definitions of what is asked for alone.

ghost use Rattle.vpf_feature_commands.specs.Classes.Serving.{ServesAsScans};

use vpf_select::laws::indexed_selection_is_the_scan;
use vpf_theme::laws::agreement_is_no_finding;

/// Where the thematic index of the column that is asked for agrees with it, the features that are asked for are those that plain scans find.
pub fn indexes_serve()
    ensures { ServesAsScans }
{
    indexed_selection_is_the_scan();
    agreement_is_no_finding();
}
