//! Why a value wasn't read.

ghost use Rattle.std.specs.Prelude.{◌≡◌};
ghost use Rattle.json_fields.specs.declared.trouble.Trouble.TheVariants.{Memory};
ghost use Rattle.json_fields.specs.declared.trouble.ItemFault.TheVariants.{WithoutMemory};

use std::alloc::{AllocError, AllocFailed};

/// Why a value wasn't read (own).
#[derive(Clone, Copy, Debug, Drop)]
pub enum Trouble {
    /// The value doesn't have the shape that the format requires.
    Shape,
    /// Out of memory.
    Memory,
}

/// Why not all items of a list were read (own).
#[derive(Clone, Copy, Debug, Drop)]
pub enum ItemFault {
    /// The item at this place, counted from 0, is the first with the wrong shape.
    Bad(usize),
    /// Out of memory.
    WithoutMemory,
}

impl<T: Drop> From<AllocFailed<T>> for ItemFault {
    ghost from_gives = { λ _ fault. fault ≡ WithoutMemory };

    fn from(_: AllocFailed<T>) -> Self {
        ItemFault::WithoutMemory
    }
}

impl From<AllocError> for Trouble {
    ghost from_gives = { λ _ trouble. trouble ≡ Memory };

    fn from(_: AllocError) -> Self {
        Trouble::Memory
    }
}

impl From<ItemFault> for Trouble {
    ghost use Rattle.json_fields.specs.Lists.{trouble_with};

    ghost from_gives = { λ fault trouble. trouble ≡ trouble_with fault };

    fn from(fault: ItemFault) -> Self {
        match fault {
            ItemFault::Bad(_) => Trouble::Shape,
            ItemFault::WithoutMemory => Trouble::Memory,
        }
    }
}

impl<T: Drop> From<AllocFailed<T>> for Trouble {
    ghost from_gives = { λ _ trouble. trouble ≡ Memory };

    fn from(_: AllocFailed<T>) -> Self {
        Trouble::Memory
    }
}

impl Trouble {
    ghost use Rattle.json_fields.specs.Lists.{item_fault};

    // This trouble as a fault of the item at a place.
    pub(crate) fn at(self, place: usize) -> ItemFault
        ensures { result ≡ item_fault self place }
    {
        match self {
            Trouble::Shape => ItemFault::Bad(place),
            Trouble::Memory => ItemFault::WithoutMemory,
        }
    }
}
