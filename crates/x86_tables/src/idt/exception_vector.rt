//! The numbers of the processor's exceptions.

ghost use Rattle.std.specs.Prelude.{◌≡◌, ◌≢◌, MatchResult};
ghost use Rattle.x86_tables.specs.ExceptionVector.{vector_number};
ghost use Rattle.x86_tables.specs.declared.idt.exception_vector.ExceptionVector.{ExceptionVector};

use thiserror::Error;

/// An exception of the processor, by the number of its entry in the interrupt descriptor table.
///
/// Source: AMD64 manual, volume 2, section 8.2; `Virtualization` is Intel's.
#[derive(Clone, Copy, PartialEq, Debug)]
pub enum ExceptionVector {
    /// A division by zero, or a quotient that is too large.
    Division = 0x00,
    /// A debug trap or a breakpoint of the debug registers.
    Debug = 0x01,
    /// An interrupt that cannot be masked.
    NonMaskableInterrupt = 0x02,
    /// The instruction `INT3`.
    Breakpoint = 0x03,
    /// The instruction `INTO`, with the overflow flag set.
    Overflow = 0x04,
    /// The instruction `BOUND`, with an index out of its bounds.
    BoundRange = 0x05,
    /// An instruction that does not exist, or may not be used.
    InvalidOpcode = 0x06,
    /// A floating-point instruction while the unit is off.
    DeviceNotAvailable = 0x07,
    /// A second exception while a first one is handled.
    Double = 0x08,
    /// A task state segment that cannot be used.
    InvalidTss = 0x0A,
    /// A segment or a gate that is not present.
    SegmentNotPresent = 0x0B,
    /// A stack segment that cannot be used, or a stack address that is not canonical.
    Stack = 0x0C,
    /// A break of a protection rule that has no exception of its own.
    GeneralProtection = 0x0D,
    /// An access that the page tables do not grant.
    Page = 0x0E,
    /// A pending error of the x87 unit.
    X87FloatingPoint = 0x10,
    /// An unaligned access while alignment is checked.
    AlignmentCheck = 0x11,
    /// A failure of the machine.
    MachineCheck = 0x12,
    /// An error of an SIMD floating-point instruction.
    SimdFloatingPoint = 0x13,
    /// A break of the second level of paging.
    Virtualization = 0x14,
    /// A break of a rule of control-flow enforcement.
    ControlProtection = 0x15,
    /// A signal that a hypervisor injects.
    HypervisorInjection = 0x1C,
    /// An event of a guest that its hypervisor has to know.
    VmmCommunication = 0x1D,
    /// An event that bears on security, such as a redirected reset.
    Security = 0x1E,
}

/// The number is not that of an exception.
#[derive(Clone, Copy, PartialEq, Eq, Debug, Error)]
#[error("{0} is not a valid exception vector")]
pub struct InvalidExceptionVectorNumber(pub u8);

/// The exception of this number; an error, with the number, exactly if none has it.
impl TryFrom<u8> for ExceptionVector {
    type Error = InvalidExceptionVectorNumber;

    ghost try_from_gives = { λ number result. MatchResult result
        (λ vector. vector_number vector ≡ number)
        (λ error. (error.0 ≡ number) × ((vector : ExceptionVector) → vector_number vector ≢ number)) };

    fn try_from(number: u8) -> Result<Self, InvalidExceptionVectorNumber> {
        match number {
            0x00 => Ok(Self::Division),
            0x01 => Ok(Self::Debug),
            0x02 => Ok(Self::NonMaskableInterrupt),
            0x03 => Ok(Self::Breakpoint),
            0x04 => Ok(Self::Overflow),
            0x05 => Ok(Self::BoundRange),
            0x06 => Ok(Self::InvalidOpcode),
            0x07 => Ok(Self::DeviceNotAvailable),
            0x08 => Ok(Self::Double),
            0x0A => Ok(Self::InvalidTss),
            0x0B => Ok(Self::SegmentNotPresent),
            0x0C => Ok(Self::Stack),
            0x0D => Ok(Self::GeneralProtection),
            0x0E => Ok(Self::Page),
            0x10 => Ok(Self::X87FloatingPoint),
            0x11 => Ok(Self::AlignmentCheck),
            0x12 => Ok(Self::MachineCheck),
            0x13 => Ok(Self::SimdFloatingPoint),
            0x14 => Ok(Self::Virtualization),
            0x15 => Ok(Self::ControlProtection),
            0x1C => Ok(Self::HypervisorInjection),
            0x1D => Ok(Self::VmmCommunication),
            0x1E => Ok(Self::Security),
            _ => Err(InvalidExceptionVectorNumber(number)),
        }
    }
}
