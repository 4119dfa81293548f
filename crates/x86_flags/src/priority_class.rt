//! Classes of interrupts.

ghost use Rattle.std.specs.Prelude.{◌≡◌, ◌≤◌, ◌↔◌, IsSome, IfSome};
ghost use Rattle.x86_flags.specs.PriorityClass.{class_number};

/// A class of interrupts. While CR8 holds it, interrupts of this and of lower classes wait.
///
/// Source: AMD64 manual, volume 2, section 3.1.5.
#[derive(Clone, Copy, PartialEq, Eq, Debug)]
pub enum PriorityClass {
    /// Class 1.
    PriorityClass1 = 1,
    /// Class 2.
    PriorityClass2 = 2,
    /// Class 3.
    PriorityClass3 = 3,
    /// Class 4.
    PriorityClass4 = 4,
    /// Class 5.
    PriorityClass5 = 5,
    /// Class 6.
    PriorityClass6 = 6,
    /// Class 7.
    PriorityClass7 = 7,
    /// Class 8.
    PriorityClass8 = 8,
    /// Class 9.
    PriorityClass9 = 9,
    /// Class 10.
    PriorityClass10 = 10,
    /// Class 11.
    PriorityClass11 = 11,
    /// Class 12.
    PriorityClass12 = 12,
    /// Class 13.
    PriorityClass13 = 13,
    /// Class 14.
    PriorityClass14 = 14,
    /// Class 15.
    PriorityClass15 = 15,
}

impl PriorityClass {
    /// The class of a number from 1 to 15. The number 0 is no class: no interrupt waits.
    pub fn new(priority_class: u8) -> Option<Self>
        ensures some { IsSome result ↔ ((1 ≤ priority_class) × (priority_class ≤ 15)) }
        ensures class { IfSome result (λ class. class_number class ≡ priority_class) }
    {
        Some(match priority_class {
            1 => Self::PriorityClass1,
            2 => Self::PriorityClass2,
            3 => Self::PriorityClass3,
            4 => Self::PriorityClass4,
            5 => Self::PriorityClass5,
            6 => Self::PriorityClass6,
            7 => Self::PriorityClass7,
            8 => Self::PriorityClass8,
            9 => Self::PriorityClass9,
            10 => Self::PriorityClass10,
            11 => Self::PriorityClass11,
            12 => Self::PriorityClass12,
            13 => Self::PriorityClass13,
            14 => Self::PriorityClass14,
            15 => Self::PriorityClass15,
            _ => return None,
        })
    }
}
