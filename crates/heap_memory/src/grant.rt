use thiserror::Error;

/// A granted region.
#[derive(Clone, Copy, PartialEq, Eq, Debug)]
pub struct Grant {
    /// The address of its first byte.
    pub base: u64,
    /// The number of its bytes.
    pub size: u64,
    /// What the system says of it.
    pub flags: u32,
}

/// Why a system granted nothing.
#[derive(Clone, Copy, PartialEq, Eq, Debug, Error)]
pub enum GrantFault {
    /// No room for the request in the addresses of the system.
    #[error("no space")]
    NoSpace,
    /// Too few free frames for the request.
    #[error("no frames")]
    NoFrames,
    /// The host had too little memory for the system's own use.
    #[error("out of memory")]
    OutOfMemory,
}
