use kernel_heap::PageFaultErrorCode;

/// What an access to one byte gives.
#[derive(Clone, Copy, PartialEq, Eq, Debug)]
pub enum Probed {
    /// The byte.
    Byte(u8),
    /// A page fault, with its code.
    Fault(PageFaultErrorCode),
    /// The address is not canonical.
    NotCanonical,
}
