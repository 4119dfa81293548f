use thiserror::Error;

/// Why a further arena is not taken.
#[derive(Debug, Clone, Copy, PartialEq, Eq, Error)]
pub enum AddFault {
    /// It has granted bytes already.
    #[error("the arena is in use")]
    InUse,
    /// It has words at addresses of another one.
    #[error("the arena overlaps another one")]
    Overlaps,
    /// There are already as many arenas as have a place.
    #[error("no place for a further arena")]
    NoPlace,
}
