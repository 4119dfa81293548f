//! The leaves to use a port.

/// The mark of the leaves below, which no other crate is to give.
pub trait Sealed {}

/// A leave to use a port.
pub trait PortAccess: Sealed {
    /// Its name in printed ports.
    const DEBUG_STR: &'static str;
}

/// A leave to read a port.
pub trait PortReadAccess: PortAccess {}

/// A leave to write a port.
pub trait PortWriteAccess: PortAccess {}

/// The leave to read a port, and not to write it.
#[derive(Debug, Drop)]
pub struct ReadOnlyAccess(());

impl Sealed for ReadOnlyAccess {}

impl PortAccess for ReadOnlyAccess {
    const DEBUG_STR: &'static str = "ReadOnly";
}

impl PortReadAccess for ReadOnlyAccess {}

/// The leave to write a port, and not to read it.
#[derive(Debug, Drop)]
pub struct WriteOnlyAccess(());

impl Sealed for WriteOnlyAccess {}

impl PortAccess for WriteOnlyAccess {
    const DEBUG_STR: &'static str = "WriteOnly";
}

impl PortWriteAccess for WriteOnlyAccess {}

/// The leave to read a port and to write it.
#[derive(Debug, Drop)]
pub struct ReadWriteAccess(());

impl Sealed for ReadWriteAccess {}

impl PortAccess for ReadWriteAccess {
    const DEBUG_STR: &'static str = "ReadWrite";
}

impl PortReadAccess for ReadWriteAccess {}

impl PortWriteAccess for ReadWriteAccess {}
