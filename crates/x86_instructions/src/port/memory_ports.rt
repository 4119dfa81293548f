//! Ports with no device behind them.

ghost use Rattle.std.specs.Prelude.{◌≡◌, None, Some};
ghost use Rattle.x86_instructions.specs.Ports.{was_read, was_written};

use crate::port::ports::{PortAccessed, Ports};

/// Ports that answer each read with the low bits of one value, and keep the last access.
#[derive(Debug, Drop)]
pub struct MemoryPorts {
    value: u32,
    last: Option<PortAccessed>,
}

impl MemoryPorts {
    ghost use Rattle.x86_instructions.specs.Ports.{port_value, last_port_access};

    /// Ports that answer the low bits of `value`, with no access yet.
    pub fn new(value: u32) -> MemoryPorts
        ensures answer { port_value result ≡ value }
        ensures last { last_port_access result ≡ None }
    {
        MemoryPorts { value, last: None }
    }

    /// The last access. None before the first.
    pub fn last(&self) -> Option<PortAccessed>
        ensures { result ≡ last_port_access self.now }
    {
        self.last
    }

    /// Keeps a read as the last access, and answers its value.
    fn read(&mut self, port: u16, width: u8, value: u32) -> u32
        ensures value { result ≡ value }
        ensures answer { port_value self.new ≡ port_value self.old }
        ensures last { last_port_access self.new ≡ Some (was_read port width value) }
    {
        self.last = Some(PortAccessed {
            port,
            width,
            write: false,
            value,
        });
        value
    }

    /// Keeps a write as the last access.
    fn write(&mut self, port: u16, width: u8, value: u32)
        ensures answer { port_value self.new ≡ port_value self.old }
        ensures last { last_port_access self.new ≡ Some (was_written port width value) }
    {
        self.last = Some(PortAccessed {
            port,
            width,
            write: true,
            value,
        });
    }
}

impl Ports for MemoryPorts {
    ghost use Rattle.x86_instructions.specs.Ports.{IsAccess, last_port_access};

    ghost last = { last_port_access };

    ghost accessed = { IsAccess };

    fn read_u8(&mut self, port: u16) -> u8 {
        self.read(port, 8, self.value & 0xFF) as u8
    }

    fn read_u16(&mut self, port: u16) -> u16 {
        self.read(port, 16, self.value & 0xFFFF) as u16
    }

    fn read_u32(&mut self, port: u16) -> u32 {
        self.read(port, 32, self.value)
    }

    fn write_u8(&mut self, port: u16, value: u8) {
        self.write(port, 8, u32::from(value));
    }

    fn write_u16(&mut self, port: u16, value: u16) {
        self.write(port, 16, u32::from(value));
    }

    fn write_u32(&mut self, port: u16, value: u32) {
        self.write(port, 32, value);
    }

    ghost is_last = { λ before access after is_access. is_access.last };
}
