//! Laws of the definitions: what a body that says nothing proves of them.

ghost use Rattle.cb_fields.specs.Laws.{ObjectOrFault, FaultIsNoObject, OneObject, OneFaultPlace, FaultLiesWithin, NeedsIsObject, NeedsTellsHashes};

/// Every list of bytes is an object or has a place of its first fault.
pub fn object_or_fault()
    ensures { ObjectOrFault }
{}

/// Bytes with a place of their first fault are no object.
pub fn fault_is_no_object()
    ensures { FaultIsNoObject }
{}

/// An object has one list of links.
pub fn one_object()
    ensures { OneObject }
{}

/// The first fault has one place.
pub fn one_fault()
    ensures { OneFaultPlace }
{}

/// The place of the first fault lies in the bytes or at their end.
pub fn fault_lies_within()
    ensures { FaultLiesWithin }
{}

/// What is written for needs is an object without links.
pub fn needs_is_object()
    ensures { NeedsIsObject }
{}

/// What is written for needs tells the hashes in their order.
pub fn needs_tells_hashes()
    ensures { NeedsTellsHashes }
{}
