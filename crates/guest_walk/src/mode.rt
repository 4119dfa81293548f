//! How a processor is set, as far as its walks and the rights of pages depend on it.

/// The settings.
///
/// Source: AMD64 manual, volume 2, sections 3.1 "System-Control Registers" and 5.6 "Page-Protection Checks".
#[derive(Clone, Copy, PartialEq, Eq, Debug)]
pub struct Mode {
    /// CR0.WP: a read-only page denies the supervisor's writes too.
    pub write_protect: bool,
    /// EFER.NXE: bit 63 of an entry denies fetches. If it is off the bit is reserved.
    pub no_execute: bool,
    /// CR4.SMEP: the supervisor fetches from no page of the user's.
    pub smep: bool,
    /// CR4.SMAP: the supervisor neither reads nor writes a page of the user's, but with RFLAGS.AC.
    pub smap: bool,
    /// RFLAGS.AC. It plays no part in accesses that the processor makes by itself, as to a descriptor table: clear it for them.
    pub alignment_check: bool,
    /// Bit 8 is ignored in entries that map no page, as by Intel's processors and QEMU. Else it is reserved in the root table.
    pub ignores_bit_8: bool,
}
