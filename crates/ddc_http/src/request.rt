// Requests, and why one was not read.
use ddc_names::{IoHash, Namespace, RefName};
use ddc_state::Checked;

/// What a request asks.
#[derive(Drop)]
pub enum Ask {
    /// To store a blob, whose bytes have the hash that the request named.
    PutBlob { space: Namespace, blob: Checked },
    /// To fetch the blob with this hash.
    GetBlob { space: Namespace, hash: IoHash },
    /// To put an object under a reference.
    PutRef { name: RefName, object: Checked },
    /// To fetch the object of a reference.
    GetRef { name: RefName },
    /// To finalise the object with this hash that was put under a reference.
    Finalise { name: RefName, hash: IoHash },
}

/// A request that was read whole.
#[derive(Drop)]
pub struct Request {
    pub ask: Ask,
}

/// Why no request was read.
#[derive(Clone, Copy, Debug, PartialEq, Eq)]
pub enum HttpFault {
    /// The head is of no form that is answered, or no head can come of the bytes.
    Unread,
    /// The input ended inside a request.
    Cut,
    /// The body has another hash than the one named. The reader goes on with the next request.
    HashMismatch { named: IoHash, found: IoHash },
    /// The body is no object, and breaks its rules first at this place in bytes. The reader goes on
    /// with the next request.
    NotAnObject { at: u64 },
    /// The source failed.
    ReadFailed,
    /// There was no memory.
    NoMemory,
}
