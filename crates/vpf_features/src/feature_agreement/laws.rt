//! What is so of the features of every schema that files are.

ghost use Rattle.vpf_features.specs.FeatureAgreement.Agreeing.{FeaturesDecide};

use vpf_theme::laws::agreement_is_no_finding;

/// There is no finding on feature tables and their thematic indexes exactly where features are numbered from 1 and each index is one of its column.
pub fn features_decide()
    ensures { FeaturesDecide }
{
    agreement_is_no_finding();
}
