//! Access to the ports of devices.

ghost use Rattle.std.specs.Prelude.{◌≡◌, ◌==◌, ⊤};
ghost use Rattle.x86_instructions.specs.Ports.{was_read, was_written};

mod access;
mod memory_ports;
mod ports;

pub use crate::port::access::{
    PortAccess, PortReadAccess, PortWriteAccess, ReadOnlyAccess, ReadWriteAccess, Sealed,
    WriteOnlyAccess,
};
pub use crate::port::memory_ports::MemoryPorts;
pub use crate::port::ports::{PortAccessed, PortRead, PortValue, PortWrite, Ports};
use std::alloc::AllocError;
use std::fmt;
use std::marker::{Model, PhantomData};

/// A port for values of one type, with the leave to read it, to write it, or both. A contract sees it as
/// the port's number.
#[derive(Drop)]
pub struct PortGeneric<T, A> {
    port: u16,
    phantom: PhantomData<(T, A)>,
}

impl<T, A> Model for PortGeneric<T, A> {
    ghost use Rattle.std.specs.Prelude.{ℕ};

    ghost Value = { ℕ };

    ghost view = { λ p. p.port };
}

/// A port that may be read and written.
pub type Port<T> = PortGeneric<T, ReadWriteAccess>;

/// A port that may only be read.
pub type PortReadOnly<T> = PortGeneric<T, ReadOnlyAccess>;

/// A port that may only be written.
pub type PortWriteOnly<T> = PortGeneric<T, WriteOnlyAccess>;

impl<T, A> PortGeneric<T, A> {
    /// The port of this number.
    pub fn new(port: u16) -> PortGeneric<T, A>
        ensures { result ≡ port }
    {
        PortGeneric {
            port,
            phantom: PhantomData,
        }
    }
}

impl<T: PortRead, A: PortReadAccess> PortGeneric<T, A> {
    /// Reads a value from the port, by one access.
    pub fn read<P: Ports>(&mut self, ports: &mut P) -> T
        ensures same { self.new ≡ self.old }
        ensures accessed { P.accessed ports.old (was_read self.old T.width (T.number result)) ports.new }
    {
        T::read_from_port(ports, self.port)
    }
}

impl<T: PortWrite, A: PortWriteAccess> PortGeneric<T, A> {
    /// Writes a value to the port, by one access.
    pub fn write<P: Ports>(&mut self, ports: &mut P, value: T)
        ensures same { self.new ≡ self.old }
        ensures accessed { P.accessed ports.old (was_written self.old T.width (T.number value)) ports.new }
    {
        T::write_to_port(ports, self.port, value);
    }
}

impl<T, A> Clone for PortGeneric<T, A> {
    ghost is_clone = { λ port copy. copy ≡ port };

    ghost is_infallible = { λ _. ⊤ };

    fn clone(&self) -> Result<Self, AllocError> {
        Ok(PortGeneric::new(self.port))
    }
}

/// Ports are equal if their numbers are.
impl<T, A> PartialEq for PortGeneric<T, A> {
    ghost use Rattle.std.proofs.Common.{rules};
    ghost use Rattle.std.specs.Cmp.Rules.{comparing};

    ghost eq = { λ left right. left == right };

    ghost laws = { Prim.search (comparing, rules) };

    fn eq(&self, other: &Self) -> bool {
        self.port == other.port
    }
}

impl<T, A> Eq for PortGeneric<T, A> {
    ghost use Rattle.std.proofs.Common.{rules};
    ghost use Rattle.std.specs.Cmp.Rules.{comparing};

    ghost laws = { Prim.search (comparing, rules) };
}

impl<T, A: PortAccess> fmt::Debug for PortGeneric<T, A> {
    fn fmt<W: fmt::Write>(&self, f: &mut fmt::Formatter<W>) -> fmt::Result {
        write!(
            f,
            "PortGeneric {{ port: {}, access: {} }}",
            self.port,
            A::DEBUG_STR
        )
    }
}
