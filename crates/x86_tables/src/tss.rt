//! The task state segment.

ghost use Rattle.std.specs.Prelude.{◌≡◌, ◌+◌, ◌≤◌, ◌++◌, length, take, drop};
ghost use Rattle.std.specs.Int.{to_le_bytes, w64};
ghost use Rattle.x86_tables.specs.TaskStateSegment.{new_tss, tss_bytes};

use paging_core::VirtAddr;
use thiserror::Error;

/// The length of a task state segment in bytes, without an I/O permission map.
const LENGTH: usize = 104;

/// The stacks that the processor switches to, and where the map of the ports that user code may use begins.
///
/// Source: AMD64 manual, volume 2, section 12.2.5.
#[derive(Clone, Copy, Debug)]
pub struct TaskStateSegment {
    /// The stacks of rings 0 to 2, which a switch to the ring loads.
    pub privilege_stack_table: [VirtAddr; 3],
    /// The stacks that entries of the interrupt descriptor table name.
    pub interrupt_stack_table: [VirtAddr; 7],
    /// How far the I/O permission map lies from the segment's first byte.
    pub iomap_base: u16,
}

impl TaskStateSegment {
    /// A segment without stacks and without an I/O permission map: that would begin where the segment ends.
    pub fn new() -> TaskStateSegment
        ensures { result ≡ new_tss }
    {
        TaskStateSegment {
            privilege_stack_table: [VirtAddr::zero(); 3],
            interrupt_stack_table: [VirtAddr::zero(); 7],
            iomap_base: LENGTH as u16,
        }
    }

    /// The bytes that the processor reads.
    pub fn to_bytes(&self) -> [u8; 104]
        ensures { result ≡ tss_bytes self.now }
    {
        let [rsp0, rsp1, rsp2] = self.privilege_stack_table;
        let stacks = [bytes_of(rsp0), bytes_of(rsp1), bytes_of(rsp2)];
        let [ist1, ist2, ist3, ist4, ist5, ist6, ist7] = self.interrupt_stack_table;
        let interrupt_stacks = [
            bytes_of(ist1),
            bytes_of(ist2),
            bytes_of(ist3),
            bytes_of(ist4),
            bytes_of(ist5),
            bytes_of(ist6),
            bytes_of(ist7),
        ];
        let mut bytes = [0; LENGTH];
        put(&mut bytes, 4, stacks.as_flattened());
        put(&mut bytes, 36, interrupt_stacks.as_flattened());
        put(&mut bytes, 102, &self.iomap_base.to_le_bytes());
        bytes
    }
}

/// The bytes of an address, the low one first.
fn bytes_of(address: VirtAddr) -> [u8; 8]
    ensures { result ≡ to_le_bytes w64 address }
{
    address.as_u64().to_le_bytes()
}

/// Writes `part` from the byte `at` on.
fn put(bytes: &mut [u8; LENGTH], at: usize, part: &[u8])
    requires { at + length part.now ≤ 104 }
    ensures { bytes.new ≡ take at bytes.old ++ (part.now ++ drop (at + length part.now) bytes.old) }
{
    bytes[at..at + part.len()].copy_from_slice(part);
}

impl Default for TaskStateSegment {
    ghost is_default = { λ tss. tss ≡ new_tss };

    fn default() -> Self {
        Self::new()
    }
}

/// The I/O permission map cannot belong to the task state segment.
#[derive(Clone, Copy, PartialEq, Eq, Debug, Error)]
pub enum InvalidIoMap {
    /// The map lies before the segment.
    #[error("the IO permissions bitmap is before the TSS")]
    IoMapBeforeTss,
    /// The map lies more than 0xdfff bytes after the segment's first byte.
    #[error("the IO permissions bitmap is too far from the TSS (distance {distance})")]
    TooFarFromTss {
        /// How far the map lies from the segment, in bytes.
        distance: usize,
    },
    /// The map's last byte is not 0xff.
    #[error("The final byte of the IO permissions bitmap was not 0xff ({byte}")]
    InvalidTerminatingByte {
        /// The last byte.
        byte: u8,
    },
    /// The map has more than 8193 bytes.
    #[error("The IO permissions bitmap exceeds the maximum length ({len} > 8193)")]
    TooLong {
        /// How many bytes the map has.
        len: usize,
    },
    /// The segment's `iomap_base` is not where the map lies.
    #[error("the `iomap_base` in the `TaskStateSegment` struct was not what was expected (expected {expected}, got {got})")]
    InvalidBase {
        /// How far the map lies from the segment, in bytes.
        expected: u16,
        /// The segment's `iomap_base`.
        got: u16,
    },
}
