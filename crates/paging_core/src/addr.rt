ghost use Rattle.std.specs.Prelude.{◌≡◌, ℕ, ◌+◌, ◌-◌, ◌%◌, ◌^◌, ◌<◌, ◌≤◌, ◌↔◌, IsTrue, IsOk, IfOk, IfErr};
ghost use Rattle.std.specs.Int.{IsPowerOfTwo};
ghost use Rattle.paging_core.specs.Address.{is_canonical, sign_extended};
ghost use Rattle.paging_core.specs.Align.{aligned_down, aligned_up};

use std::marker::Model;
use thiserror::Error;

const LOW_HALF: u64 = 0x7fff_ffff_ffff;

const HIGH_HALF: u64 = 0xffff_8000_0000_0000;

const PHYSICAL: u64 = 0xf_ffff_ffff_ffff;

/// A canonical virtual address: its bits 47 to 63 are equal (AMD64 volume 2, "Canonical Address
/// Form").
#[derive(Clone, Copy, PartialEq, Eq, PartialOrd, Ord, Hash, Debug)]
pub struct VirtAddr(u64);

impl Model for VirtAddr {
    ghost Value = { ℕ };

    ghost view = { λ a. a.0 };

    ghost invariant = { λ a. IsTrue (is_canonical a.0) };

    ghost inverse = { λ n. record { 0 = n } };
}

/// The number is no canonical virtual address: bits 47 to 63 differ.
#[derive(Clone, Copy, PartialEq, Eq, Debug, Error)]
#[error("0x{0:x} is no canonical virtual address")]
pub struct VirtAddrNotValid(pub u64);

impl VirtAddr {
    /// The address with this number, which is canonical.
    pub fn new(addr: u64) -> Self
        requires { IsTrue (is_canonical addr) }
        ensures { result ≡ addr }
    {
        VirtAddr(addr)
    }

    /// The address with this number, if it is canonical.
    pub fn try_new(addr: u64) -> Result<Self, VirtAddrNotValid>
        ensures canonical { IsOk result ↔ IsTrue (is_canonical addr) }
        ensures ok { IfOk result (λ address. address ≡ addr) }
        ensures err { IfErr result (λ error. error.0 ≡ addr) }
    {
        if addr <= LOW_HALF || addr >= HIGH_HALF {
            Ok(VirtAddr(addr))
        } else {
            Err(VirtAddrNotValid(addr))
        }
    }

    /// The address with the low 48 bits of the number: bit 47 is copied to the bits above it.
    pub fn new_truncate(addr: u64) -> Self
        ensures { result ≡ sign_extended addr }
    {
        let low = addr & LOW_HALF;
        if addr & (1 << 47) == 0 {
            VirtAddr(low)
        } else {
            VirtAddr(HIGH_HALF | low)
        }
    }

    /// The address 0.
    pub fn zero() -> Self
        ensures { result ≡ 0 }
    {
        VirtAddr(0)
    }

    /// The number of the address.
    pub fn as_u64(self) -> u64
        ensures value { result ≡ self }
        ensures canonical { IsTrue (is_canonical result) }
    {
        self.0
    }
}

/// A physical address: its bits 52 to 63 are 0.
#[derive(Clone, Copy, PartialEq, Eq, PartialOrd, Ord, Hash, Debug)]
pub struct PhysAddr(u64);

impl Model for PhysAddr {
    ghost Value = { ℕ };

    ghost view = { λ a. a.0 };

    ghost invariant = { λ a. a.0 < 2 ^ 52 };

    ghost inverse = { λ n. record { 0 = n } };
}

/// The number is no physical address: one of bits 52 to 63 is set.
#[derive(Clone, Copy, PartialEq, Eq, Debug, Error)]
#[error("0x{0:x} is no physical address of 52 bits")]
pub struct PhysAddrNotValid(pub u64);

impl PhysAddr {
    /// The address with this number, which has 52 bits.
    pub fn new(addr: u64) -> Self
        requires { addr < 2 ^ 52 }
        ensures { result ≡ addr }
    {
        PhysAddr(addr)
    }

    /// The address with this number, if it has 52 bits.
    pub fn try_new(addr: u64) -> Result<Self, PhysAddrNotValid>
        ensures fits { IsOk result ↔ (addr < 2 ^ 52) }
        ensures ok { IfOk result (λ address. address ≡ addr) }
        ensures err { IfErr result (λ error. error.0 ≡ addr) }
    {
        if addr <= PHYSICAL {
            Ok(PhysAddr(addr))
        } else {
            Err(PhysAddrNotValid(addr))
        }
    }

    /// The address with the low 52 bits of the number.
    pub fn new_truncate(addr: u64) -> Self
        ensures { result ≡ addr % 2 ^ 52 }
    {
        PhysAddr(addr & PHYSICAL)
    }

    /// The number of the address.
    pub fn as_u64(self) -> u64
        ensures value { result ≡ self }
        ensures fits { result < 2 ^ 52 }
    {
        self.0
    }
}

/// The greatest multiple of `align` that is at most the address. `align` is a power of two.
pub fn align_down(addr: u64, align: u64) -> u64
    requires power { IsPowerOfTwo align }
    ensures value { result ≡ aligned_down addr align }
    ensures multiple { result % align ≡ 0 }
    ensures near { (result ≤ addr) × (addr < result + align) }
{
    addr & !(align - 1)
}

/// The least multiple of `align` that is at least the address. `align` is a power of two, and the
/// multiple is below 2^64.
pub fn align_up(addr: u64, align: u64) -> u64
    requires power { IsPowerOfTwo align }
    requires fits { aligned_up addr align < 2 ^ 64 }
    ensures value { result ≡ aligned_up addr align }
    ensures multiple { result % align ≡ 0 }
    ensures near { (addr ≤ result) × (result < addr + align) }
{
    align_down(addr + (align - 1), align)
}
