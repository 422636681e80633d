ghost use Rattle.std.specs.Prelude.{◌≡◌};

use std::alloc::{AllocError, AllocFailed};
use thiserror::Error;

/// Why a class, a field or a method was not found, or not selected.
#[derive(Clone, Copy, Debug, PartialEq, Eq, Error)]
pub enum LinkFault {
    /// No class has the name (5.4.3.1).
    #[error("no such class")]
    NoClass,
    /// No class of the lookup declares the field (5.4.3.2).
    #[error("no such field")]
    NoField,
    /// No class of the lookup declares the method (5.4.3.3 and 5.4.3.4).
    #[error("no such method")]
    NoMethod,
    /// Several superinterface methods are maximally specific and not abstract (6.5).
    #[error("several methods to choose from")]
    Incompatible,
    /// What is selected is abstract, or there is nothing to select (6.5).
    #[error("an abstract method")]
    Abstract,
    /// Memory ran out, which says nothing of classes.
    #[error("out of memory")]
    Memory,
}

impl From<AllocError> for LinkFault {
    ghost use Rattle.link_versions.specs.declared.fault.LinkFault.TheVariants as faults;

    ghost from_gives = { λ _ e. e ≡ faults.Memory };

    fn from(_: AllocError) -> LinkFault {
        LinkFault::Memory
    }
}

impl<T: Drop> From<AllocFailed<T>> for LinkFault {
    ghost use Rattle.link_versions.specs.declared.fault.LinkFault.TheVariants as faults;

    ghost from_gives = { λ _ e. e ≡ faults.Memory };

    fn from(_: AllocFailed<T>) -> LinkFault {
        LinkFault::Memory
    }
}
