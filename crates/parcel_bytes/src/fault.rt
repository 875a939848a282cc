//! Why bytes are no parcel.
use thiserror::Error;

/// Why bytes spell no parcel, with the place in bytes from the start: of the byte that stands for nothing, of the first byte too many, or of the end.
#[derive(Clone, Copy, Debug, PartialEq, Eq, Error)]
pub enum ParcelFault {
    /// The bytes end within a parcel.
    #[error("the bytes end within a parcel at byte {at}")]
    Truncated { at: usize },
    /// A byte stands for no element, act, operation or flag, or a Swap has a name.
    #[error("an unknown tag at byte {at}")]
    UnknownTag { at: usize },
    /// Bytes stand behind the parcel.
    #[error("bytes behind the parcel from byte {at}")]
    Trailing { at: usize },
    #[error("out of memory")]
    OutOfMemory,
}
