/// How a machine is made.
#[derive(Clone, Copy, PartialEq, Eq, Debug)]
pub struct Config {
    /// The first address of the window in which heap regions are granted.
    pub base: u64,
    /// The pages of the window.
    pub pages: u64,
    /// Heap regions are asked for in multiples of this number of bytes, a power of two of at least 16.
    pub granularity: u64,
    /// The frames of physical memory, of 4096 bytes each.
    pub frames: u32,
    /// How many large chunks are freed between two release passes.
    pub rate: u64,
}
