//! The protection rings.

ghost use Rattle.std.specs.Prelude.{◌≡◌, ◌<◌, ◌≤◌, ◌↔◌, IsNone, IfSome};
ghost use Rattle.x86_flags.specs.PrivilegeLevel.{level_number};

/// A protection ring. The lower its number, the more the code in it may do.
///
/// Source: AMD64 manual, volume 2, section 4.9.1.
#[derive(Clone, Copy, PartialEq, Eq, Hash, Debug)]
pub enum PrivilegeLevel {
    /// The system's kernel.
    Ring0 = 0,
    /// Less trusted parts of the system.
    Ring1 = 1,
    /// Less trusted parts of the system.
    Ring2 = 2,
    /// User programs.
    Ring3 = 3,
}

impl PrivilegeLevel {
    /// The ring of a number below 4.
    pub fn from_u16(value: u16) -> PrivilegeLevel
        requires { value < 4 }
        ensures { level_number result ≡ value }
    {
        match value {
            0 => PrivilegeLevel::Ring0,
            1 => PrivilegeLevel::Ring1,
            2 => PrivilegeLevel::Ring2,
            _ => PrivilegeLevel::Ring3,
        }
    }

    /// The ring of a number, or none from 4 on.
    pub fn try_from_u16(value: u16) -> Option<PrivilegeLevel>
        ensures none { IsNone result ↔ (4 ≤ value) }
        ensures level { IfSome result (λ level. level_number level ≡ value) }
    {
        if value < 4 {
            Some(PrivilegeLevel::from_u16(value))
        } else {
            None
        }
    }
}
