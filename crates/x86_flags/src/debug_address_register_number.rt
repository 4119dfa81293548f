//! The registers that hold a breakpoint's address.

ghost use Rattle.std.specs.Prelude.{◌≡◌, ◌<◌, ◌≤◌, ◌↔◌, IsNone, IfSome};
ghost use Rattle.x86_flags.specs.DebugAddressRegisterNumber.{register_number};

/// One of the four registers that hold a breakpoint's address.
///
/// Source: AMD64 manual, volume 2, section 13.1.1.
#[derive(Clone, Copy, PartialEq, Eq, Debug)]
pub enum DebugAddressRegisterNumber {
    /// The register DR0.
    Dr0,
    /// The register DR1.
    Dr1,
    /// The register DR2.
    Dr2,
    /// The register DR3.
    Dr3,
}

impl DebugAddressRegisterNumber {
    /// The register of a number, or none from 4 on.
    pub fn new(n: u8) -> Option<Self>
        ensures none { IsNone result ↔ (4 ≤ n) }
        ensures register { IfSome result (λ register. register_number register ≡ n) }
    {
        match n {
            0 => Some(Self::Dr0),
            1 => Some(Self::Dr1),
            2 => Some(Self::Dr2),
            3 => Some(Self::Dr3),
            _ => None,
        }
    }

    /// The register's number, below 4.
    pub fn get(self) -> u8
        ensures { result ≡ register_number self }
    {
        match self {
            Self::Dr0 => 0,
            Self::Dr1 => 1,
            Self::Dr2 => 2,
            Self::Dr3 => 3,
        }
    }
}
