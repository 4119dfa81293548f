//! The register file.

ghost use Rattle.std.specs.Prelude.{◌≡◌, ◌++◌};
ghost use Rattle.std.specs.Int.{to_le_bytes, w16, w64};

use paging_core::VirtAddr;

/// Where a descriptor table lies: its first address, and the offset of its last byte.
///
/// Source: AMD64 manual, volume 2, section 4.6.2.
#[derive(Clone, Copy, Debug)]
pub struct DescriptorTablePointer {
    /// The table's size in bytes, less 1.
    pub limit: u16,
    /// The table's first address.
    pub base: VirtAddr,
}

impl DescriptorTablePointer {
    /// The bytes that the processor reads and stores: the limit, and then the base, low bytes first.
    pub fn to_bytes(&self) -> [u8; 10]
        ensures { result ≡ to_le_bytes w16 self.now.limit ++ to_le_bytes w64 self.now.base }
    {
        let [l0, l1] = self.limit.to_le_bytes();
        let [b0, b1, b2, b3, b4, b5, b6, b7] = self.base.as_u64().to_le_bytes();
        [l0, l1, b0, b1, b2, b3, b4, b5, b6, b7]
    }
}

/// The registers of a processor, and which features it has.
#[derive(Clone, Copy, Debug)]
pub struct Cpu {
    /// The control register CR0.
    pub cr0: u64,
    /// The control register CR2: the address of the last page fault.
    pub cr2: u64,
    /// The control register CR3: where the top page table lies.
    pub cr3: u64,
    /// The control register CR4.
    pub cr4: u64,
    /// The control register CR8: the task's priority.
    pub cr8: u64,
    /// The address of breakpoint 0.
    pub dr0: u64,
    /// The address of breakpoint 1.
    pub dr1: u64,
    /// The address of breakpoint 2.
    pub dr2: u64,
    /// The address of breakpoint 3.
    pub dr3: u64,
    /// The debug status register DR6.
    pub dr6: u64,
    /// The debug control register DR7.
    pub dr7: u64,
    /// The extended control register XCR0.
    pub xcr0: u64,
    /// The flags register RFLAGS.
    pub rflags: u64,
    /// The extended feature enable register EFER.
    pub efer: u64,
    /// The base of the segment FS.
    pub fs_base: u64,
    /// The base of the segment GS.
    pub gs_base: u64,
    /// The base of GS that `GS::swap` brings in.
    pub kernel_gs_base: u64,
    /// The selectors of `SYSCALL` and `SYSRET`.
    pub star: u64,
    /// The address that `SYSCALL` jumps to.
    pub lstar: u64,
    /// The bits of RFLAGS that `SYSCALL` clears.
    pub sfmask: u64,
    /// The control-flow enforcement of user code.
    pub u_cet: u64,
    /// The control-flow enforcement of supervisor code.
    pub s_cet: u64,
    /// Where the local interrupt controller lies, and its state.
    pub apic_base: u64,
    /// The SIMD control and status register MXCSR.
    pub mxcsr: u32,
    /// How many address space identifiers there are.
    pub nasid: u32,
    /// The selector of the code segment.
    pub cs: u16,
    /// The selector of the stack segment.
    pub ss: u16,
    /// The selector of the data segment.
    pub ds: u16,
    /// The selector of the extra segment ES.
    pub es: u16,
    /// The selector of the extra segment FS.
    pub fs: u16,
    /// The selector of the extra segment GS.
    pub gs: u16,
    /// The selector of the task state segment.
    pub tr: u16,
    /// The greatest count that `INVLPGB` takes in ECX: bits 0 to 15 of EDX of CPUID 8000_0008.
    pub invlpgb_count_max: u16,
    /// Where the global descriptor table lies.
    pub gdtr: DescriptorTablePointer,
    /// Where the interrupt descriptor table lies.
    pub idtr: DescriptorTablePointer,
    /// Whether supervisor code can be kept from user pages.
    pub smap: bool,
    /// Whether there is the instruction `INVLPGB`.
    pub invlpgb: bool,
    /// Whether `INVLPGB` can flush nested translations.
    pub tlb_flush_nested: bool,
}

impl Cpu {
    ghost use Rattle.x86_registers.specs.Cpu.{new_cpu};

    /// The register file at first: the errors of MXCSR are masked, bit 1 of RFLAGS is set, and all else is
    /// 0, or off.
    pub fn new() -> Self
        ensures { result ≡ new_cpu }
    {
        Self {
            cr0: 0,
            cr2: 0,
            cr3: 0,
            cr4: 0,
            cr8: 0,
            dr0: 0,
            dr1: 0,
            dr2: 0,
            dr3: 0,
            dr6: 0,
            dr7: 0,
            xcr0: 0,
            rflags: 2,
            efer: 0,
            fs_base: 0,
            gs_base: 0,
            kernel_gs_base: 0,
            star: 0,
            lstar: 0,
            sfmask: 0,
            u_cet: 0,
            s_cet: 0,
            apic_base: 0,
            mxcsr: 0x1F80,
            nasid: 0,
            cs: 0,
            ss: 0,
            ds: 0,
            es: 0,
            fs: 0,
            gs: 0,
            tr: 0,
            invlpgb_count_max: 0,
            gdtr: DescriptorTablePointer {
                limit: 0,
                base: VirtAddr::zero(),
            },
            idtr: DescriptorTablePointer {
                limit: 0,
                base: VirtAddr::zero(),
            },
            smap: false,
            invlpgb: false,
            tlb_flush_nested: false,
        }
    }
}
