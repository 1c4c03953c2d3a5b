//! Why features aren't taken.

use std::alloc::AllocError;
use vpf_findings::Finding;
use vpf_source::Name;

/// Why the features of a coverage aren't taken.
#[derive(Debug, Drop)]
pub enum FeatureFault<'a> {
    /// The file of this name disagrees here first.
    Finding(Name, Finding<'a>),
    /// There was too little memory.
    NoMemory,
}

impl<'a> From<AllocError> for FeatureFault<'a> {
    ghost use Rattle.std.specs.Prelude.{◌≡◌};
    ghost use Rattle.vpf_features.specs.declared.faults.FeatureFault.TheVariants as faults;

    ghost from_gives = { λ _ fault. fault ≡ faults.NoMemory };

    fn from(_: AllocError) -> Self {
        FeatureFault::NoMemory
    }
}
