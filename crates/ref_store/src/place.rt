//! The keys of the ordered map in which the table keeps its slots.

ghost use Rattle.std.specs.Prelude.{◌≡◌};
ghost use Rattle.ref_store.specs.inside.Places.{place_of_name};

use ddc_names::{Namespace, RefName, RefSpot};

// A place with no spot stands before every reference of its namespace. A range can start there; no slot is kept there.
#[derive(Clone, Copy, Debug, PartialEq, Eq, PartialOrd, Ord)]
pub(crate) struct Place {
    pub(crate) space: Namespace,
    pub(crate) spot: Option<RefSpot>,
}

impl Place {
    pub(crate) fn of(name: &RefName) -> Place
        ensures { result ≡ place_of_name name.now }
    {
        Place {
            space: name.space,
            spot: Some(name.spot),
        }
    }
}
