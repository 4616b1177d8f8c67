//! Why inputs are refused.

ghost use Rattle.std.specs.Prelude.{◌≡◌, ◌+◌};
ghost use Rattle.std.specs.Result.{result_map_both};
ghost use Rattle.rbac_manifest.specs.declared.fault.Cause.TheVariants.{NoMemory};
ghost use Rattle.rbac_manifest.specs.Reads.{cause_of};

use json_fields::Trouble;
use json_list::ReadFault;
use std::alloc::{AllocError, AllocFailed};
use std::error::Error;
use std::fmt;

// What was read, or why it is refused: the cause `refused` if its shape is wrong, otherwise out of
// memory.
pub(crate) fn read_or<T: Drop>(read: Result<T, Trouble>, refused: Cause) -> Result<T, Cause>
    ensures { result ≡ result_map_both (λ value. value) (λ trouble. cause_of trouble refused) read }
{
    match read {
        Ok(value) => Ok(value),
        Err(Trouble::Shape) => Err(refused),
        Err(Trouble::Memory) => Err(Cause::NoMemory),
    }
}

/// Why inputs are refused (own): M1 to M13, of which M11 and M12 aren't about one document. If a
/// document has several faults, the one with the least number is reported. Places of rules and
/// subjects count from 0; if the field isn't a list, the place is 0.
#[derive(Clone, Copy, Debug, Drop, PartialEq, Eq)]
pub enum Cause {
    /// M1: the bytes of the input aren't JSON.
    NotJson,
    /// M2: the document isn't an object, its kind is missing and no list implies one, its kind
    /// isn't a text, or the items of a list aren't a list.
    NotAnObject,
    /// M3: the version is missing, isn't a text, or is a version of the RBAC group that isn't read.
    BadVersion,
    /// M4: the metadata has no name or has the wrong shape.
    BadMetadata,
    /// M5: the rule at this place is the first bad one.
    BadRule(usize),
    /// M6: the role that a binding names is missing, or has the wrong kind or the wrong shape.
    BadRoleRef,
    /// M7: the subject at this place is the first bad one.
    BadSubject(usize),
    /// M8: the selectors of an aggregated role have the wrong shape.
    BadSelector,
    /// M9: an API resource list has the wrong shape.
    BadCatalogue,
    /// M10: a Universe document has a field of the wrong shape.
    BadUniverse,
    /// M11: there are more than a million grants.
    TooMany,
    /// M12: out of memory. Its text has no number.
    NoMemory,
    /// M13: the users of a Group document aren't a list of names.
    BadGroup,
}

impl From<AllocError> for Cause {
    ghost from_gives = { λ _ cause. cause ≡ NoMemory };

    fn from(_: AllocError) -> Self {
        Cause::NoMemory
    }
}

impl<T: Drop> From<AllocFailed<T>> for Cause {
    ghost from_gives = { λ _ cause. cause ≡ NoMemory };

    fn from(_: AllocFailed<T>) -> Self {
        Cause::NoMemory
    }
}

impl fmt::Display for Cause {
    ghost use Rattle.std.specs.Prelude.{Some};
    ghost use Rattle.rbac_manifest.specs.FaultTexts.{cause_text};

    ghost output = { λ cause. Some (cause_text cause) };

    fn fmt<W: fmt::Write>(&self, f: &mut fmt::Formatter<W>) -> fmt::Result {
        let text = match self {
            Cause::NotJson => "M1 not JSON",
            Cause::NotAnObject => "M2 not an object",
            Cause::BadVersion => "M3 bad version",
            Cause::BadMetadata => "M4 bad metadata",
            Cause::BadRule(place) => return write!(f, "M5 bad rule {}", from_one(*place)),
            Cause::BadRoleRef => "M6 bad roleRef",
            Cause::BadSubject(place) => return write!(f, "M7 bad subject {}", from_one(*place)),
            Cause::BadSelector => "M8 bad selector",
            Cause::BadCatalogue => "M9 bad API resource list",
            Cause::BadUniverse => "M10 bad universe",
            Cause::TooMany => "M11 too many grants",
            Cause::NoMemory => "out of memory",
            Cause::BadGroup => "M13 bad group",
        };
        f.write_str(text)
    }
}

// A place as it is printed.
fn from_one(place: usize) -> u128
    ensures { result ≡ place + 1 }
{
    place as u128 + 1
}

// Why an input is refused and, if the fault is that of an item in a list, which item.
#[derive(Drop)]
pub(crate) struct Refusal {
    pub item: Option<usize>,
    pub cause: Cause,
}

impl Refusal {
    ghost use Rattle.rbac_manifest.specs.Load.{as_whole, in_item};

    // A refusal of the whole input.
    pub(crate) fn whole(cause: Cause) -> Refusal
        ensures { result ≡ as_whole cause }
    {
        Refusal { item: None, cause }
    }

    // A refusal of the item at a place.
    pub(crate) fn item(place: usize, cause: Cause) -> Refusal
        ensures { result ≡ in_item place cause }
    {
        Refusal {
            item: Some(place),
            cause,
        }
    }
}

impl From<AllocError> for Refusal {
    ghost from_gives = { λ _ refusal. refusal.cause ≡ NoMemory };

    fn from(_: AllocError) -> Self {
        Refusal::whole(Cause::NoMemory)
    }
}

impl From<ReadFault> for Refusal {
    ghost use Rattle.rbac_manifest.specs.Load.{as_whole, unread_cause};

    ghost from_gives = { λ fault refusal. refusal ≡ as_whole (unread_cause fault) };

    fn from(fault: ReadFault) -> Self {
        match fault {
            ReadFault::Refused => Refusal::whole(Cause::NotJson),
            ReadFault::NoMemory => Refusal::whole(Cause::NoMemory),
        }
    }
}

/// The place of a document, counted from 0: its file and, if the file holds a list, its item. A
/// fault of the list itself has no item.
#[derive(Clone, Copy, Debug, Drop, PartialEq, Eq)]
pub struct At {
    /// The file, in the order of the inputs.
    pub file: usize,
    /// The item of the list.
    pub item: Option<usize>,
}

impl fmt::Display for At {
    ghost use Rattle.std.specs.Prelude.{Some};
    ghost use Rattle.rbac_manifest.specs.FaultTexts.{at_text};

    ghost output = { λ at. Some (at_text at) };

    fn fmt<W: fmt::Write>(&self, f: &mut fmt::Formatter<W>) -> fmt::Result {
        match self.item {
            Some(item) => write!(f, "file {} item {}", from_one(self.file), from_one(item)),
            None => write!(f, "file {}", from_one(self.file)),
        }
    }
}

/// Why inputs are refused: the place and the cause. Too many grants and out of memory have no
/// place. Prints as `file F item I: CAUSE`, with all numbers counted from 1.
#[derive(Clone, Copy, Debug, Drop, PartialEq, Eq)]
pub struct LoadFault {
    /// The document that is refused.
    pub at: Option<At>,
    /// Why it is refused.
    pub cause: Cause,
}

impl LoadFault {
    ghost use Rattle.std.specs.Prelude.{◌≢◌, None};
    ghost use Rattle.rbac_manifest.specs.Load.{in_file, too_many};

    // A refusal of the whole file or of one of its items. Out of memory has no place.
    pub(crate) fn in_file(file: usize, refusal: Refusal) -> LoadFault
        ensures cause { result.cause ≡ refusal.cause }
        ensures place { refusal.cause ≢ NoMemory → result ≡ in_file file refusal }
        ensures memory { refusal.cause ≡ NoMemory → result.at ≡ None }
    {
        match refusal.cause {
            Cause::NoMemory => LoadFault::no_memory(),
            cause => LoadFault {
                at: Some(At {
                    file,
                    item: refusal.item,
                }),
                cause,
            },
        }
    }

    // More grants than are allowed, in all inputs together.
    pub(crate) fn too_many() -> LoadFault
        ensures { result ≡ too_many }
    {
        LoadFault {
            at: None,
            cause: Cause::TooMany,
        }
    }

    // Out of memory, which has no place.
    pub(crate) fn no_memory() -> LoadFault
        ensures { result ≡ record { at = None; cause = NoMemory } }
    {
        LoadFault {
            at: None,
            cause: Cause::NoMemory,
        }
    }
}

impl fmt::Display for LoadFault {
    ghost use Rattle.std.specs.Prelude.{Some};
    ghost use Rattle.rbac_manifest.specs.FaultTexts.{fault_text};

    ghost output = { λ fault. Some (fault_text fault) };

    fn fmt<W: fmt::Write>(&self, f: &mut fmt::Formatter<W>) -> fmt::Result {
        match self.at {
            Some(at) => write!(f, "{at}: {}", self.cause),
            None => write!(f, "{}", self.cause),
        }
    }
}

impl Error for LoadFault {}
