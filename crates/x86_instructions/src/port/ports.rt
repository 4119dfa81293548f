//! What has ports, and the values that go through them.

ghost use Rattle.x86_instructions.specs.Ports.{was_read, was_written};

/// An access to a port.
#[derive(Clone, Copy, PartialEq, Eq, Debug)]
pub struct PortAccessed {
    /// The port's number.
    pub port: u16,
    /// How many bits the access had: 8, 16 or 32.
    pub width: u8,
    /// Whether it was a write.
    pub write: bool,
    /// The value that was written, or that the read answered.
    pub value: u32,
}

/// The ports of devices.
///
/// Source: AMD64 manual, volume 3, `IN` and `OUT`.
pub trait Ports {
    ghost use Rattle.std.specs.Prelude.{Option, Some, ◌≡◌};
    ghost use Rattle.x86_instructions.specs.declared.port.ports.PortAccessed.{PortAccessed};

    // The last access. None before the first.
    ghost last: { Self → Option PortAccessed };

    // From the one to the other there was this access, and no other.
    ghost accessed: { Self → PortAccessed → Self → Type 0 };

    /// Reads 8 bits from the port.
    fn read_u8(&mut self, port: u16) -> u8
        ensures { accessed self.old (was_read port 8 result) self.new };

    /// Reads 16 bits from the port.
    fn read_u16(&mut self, port: u16) -> u16
        ensures { accessed self.old (was_read port 16 result) self.new };

    /// Reads 32 bits from the port.
    fn read_u32(&mut self, port: u16) -> u32
        ensures { accessed self.old (was_read port 32 result) self.new };

    /// Writes 8 bits to the port.
    fn write_u8(&mut self, port: u16, value: u8)
        ensures { accessed self.old (was_written port 8 value) self.new };

    /// Writes 16 bits to the port.
    fn write_u16(&mut self, port: u16, value: u16)
        ensures { accessed self.old (was_written port 16 value) self.new };

    /// Writes 32 bits to the port.
    fn write_u32(&mut self, port: u16, value: u32)
        ensures { accessed self.old (was_written port 32 value) self.new };

    // An access is the last one after it.
    ghost is_last: { (before : Self) (access : PortAccessed) (after : Self) → accessed before access after
        → last after ≡ Some access };
}

/// A value that fits a port: a number of 8, 16 or 32 bits.
pub trait PortValue {
    ghost use Rattle.std.specs.Prelude.{ℕ};

    // How many bits it has.
    ghost width: { ℕ };

    // The number.
    ghost number: { Self → ℕ };
}

/// A value that is read from a port by an access of its width.
pub trait PortRead: PortValue {
    /// Reads the value from the port.
    fn read_from_port<P: Ports>(ports: &mut P, port: u16) -> Self
        ensures { P.accessed ports.old (was_read port Self.width (Self.number result)) ports.new };
}

/// A value that is written to a port by an access of its width.
pub trait PortWrite: PortValue {
    /// Writes the value to the port.
    fn write_to_port<P: Ports>(ports: &mut P, port: u16, value: Self)
        ensures { P.accessed ports.old (was_written port Self.width (Self.number value)) ports.new };
}

impl PortValue for u8 {
    ghost width = { 8 };

    ghost number = { λ value. value };
}

impl PortRead for u8 {
    fn read_from_port<P: Ports>(ports: &mut P, port: u16) -> u8 {
        ports.read_u8(port)
    }
}

impl PortWrite for u8 {
    fn write_to_port<P: Ports>(ports: &mut P, port: u16, value: u8) {
        ports.write_u8(port, value);
    }
}

impl PortValue for u16 {
    ghost width = { 16 };

    ghost number = { λ value. value };
}

impl PortRead for u16 {
    fn read_from_port<P: Ports>(ports: &mut P, port: u16) -> u16 {
        ports.read_u16(port)
    }
}

impl PortWrite for u16 {
    fn write_to_port<P: Ports>(ports: &mut P, port: u16, value: u16) {
        ports.write_u16(port, value);
    }
}

impl PortValue for u32 {
    ghost width = { 32 };

    ghost number = { λ value. value };
}

impl PortRead for u32 {
    fn read_from_port<P: Ports>(ports: &mut P, port: u16) -> u32 {
        ports.read_u32(port)
    }
}

impl PortWrite for u32 {
    fn write_to_port<P: Ports>(ports: &mut P, port: u16, value: u32) {
        ports.write_u32(port, value);
    }
}
