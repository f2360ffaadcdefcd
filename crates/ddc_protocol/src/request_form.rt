//! The requests that are answered.

use ddc_names::{IoHash, Namespace, RefName};

/// What a request head asks for.
#[derive(Clone, Copy, Debug, PartialEq, Eq)]
pub enum RequestForm {
    /// To store the body, of so many bytes, under its hash.
    PutBlob(Namespace, IoHash, u64),
    /// To fetch the blob with this hash.
    GetBlob(Namespace, IoHash),
    /// To put the object in the body, of so many bytes, under a reference.
    PutRef(RefName, u64),
    /// To fetch the object of a reference.
    GetRef(RefName),
    /// To finalise the object with this hash that was put under a reference.
    Finalise(RefName, IoHash),
}
