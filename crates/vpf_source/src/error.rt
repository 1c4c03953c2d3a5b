//! Why a call of a tree or a sink failed.

ghost use Rattle.std.specs.Prelude.{◌≡◌};
ghost use Rattle.vpf_source.specs.declared.error.LoadError.TheVariants as load_errors;
ghost use Rattle.vpf_source.specs.declared.error.DeviceError.TheVariants as device_errors;

use std::alloc::AllocError;
use thiserror::Error;

/// The tree or the sink failed.
#[derive(Clone, Copy, Debug, PartialEq, Eq, Error)]
#[error("the device failed")]
pub struct Failed;

/// Why a call of a tree or a sink that takes memory failed.
#[derive(Clone, Copy, Debug, PartialEq, Eq, Error)]
pub enum DeviceError {
    /// The tree or the sink failed.
    #[error("the device failed")]
    Failed,
    /// There was no memory for the call.
    #[error("out of memory")]
    NoMemory,
}

/// Why a file was not loaded.
#[derive(Clone, Copy, Debug, PartialEq, Eq, Error)]
pub enum LoadError {
    /// The tree failed.
    #[error("the tree failed")]
    Failed,
    /// There was no memory for the file.
    #[error("out of memory")]
    NoMemory,
    /// The file is longer than the budget; its size is in bytes.
    #[error("the file has {size} bytes")]
    TooLarge { size: u64 },
}

impl From<Failed> for LoadError {
    ghost from_gives = { λ _ e. e ≡ load_errors.Failed };

    fn from(_: Failed) -> Self {
        LoadError::Failed
    }
}

impl From<AllocError> for LoadError {
    ghost from_gives = { λ _ e. e ≡ load_errors.NoMemory };

    fn from(_: AllocError) -> Self {
        LoadError::NoMemory
    }
}

impl From<Failed> for DeviceError {
    ghost from_gives = { λ _ e. e ≡ device_errors.Failed };

    fn from(_: Failed) -> Self {
        DeviceError::Failed
    }
}

impl From<AllocError> for DeviceError {
    ghost from_gives = { λ _ e. e ≡ device_errors.NoMemory };

    fn from(_: AllocError) -> Self {
        DeviceError::NoMemory
    }
}
