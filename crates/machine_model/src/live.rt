/// A block that was handed out and has not ended, as a machine keeps it.
#[derive(Clone, Copy, PartialEq, Eq, Debug)]
pub struct Live {
    /// The address of its first byte.
    pub address: u64,
    /// The number of its bytes.
    pub size: u64,
    /// Its address is a multiple of this number.
    pub align: u64,
}
