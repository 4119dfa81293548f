// A machine that says of each probe where its walk arrives.
ghost use Rattle.std.specs.Prelude.{◌≡◌, ◌++◌, OnOk, string_bytes};
ghost use Rattle.paged_systems.specs.System.{paged};
ghost use Rattle.memory_image.specs.Traced.{probed_address, IsTracing};
ghost use Rattle.memory_image.specs.TracedLaws.{tracing_none, tracing_on};
ghost use Rattle.memory_image.specs.Walks.{place_from, place_walked, cr2_line};

use heap_program::Respond;
use kernel_heap::{Call, Machine, PagedSystem};
use paging_core::{Page, VirtAddr, walk};
use std::alloc::AllocError;

/// A machine, traced.
#[derive(Drop)]
pub struct Traced {
    pub machine: Machine,
}

// The physical address at which the walk of a canonical address arrives, if its page is mapped.
fn place_of_address(system: &PagedSystem, address: VirtAddr) -> Option<u64>
    ensures { result ≡ place_from (paged system.now) address }
{
    let page = Page::containing_address(address);
    let Some(mapped) = walk(system.frames(), system.root(), page) else {
        return None;
    };
    Some(mapped.frame.start_address().as_u64() + address.as_u64() % 4096)
}

// The same of any address.
fn place_walked(system: &PagedSystem, at: u64) -> Option<u64>
    ensures { result ≡ place_walked (paged system.now) at }
{
    match VirtAddr::try_new(at) {
        Ok(address) => place_of_address(system, address),
        Err(_) => None,
    }
}

// Puts CR2 and the place of an address at the end.
fn push_walk(out: &mut String, machine: &Machine, at: u64) -> Result<(), AllocError>
    ensures { OnOk result (string_bytes out.new ≡ string_bytes out.old ++ cr2_line machine.now at) }
{
    let cr2 = machine.cpu().cr2;
    match place_walked(machine.system(), at) {
        Some(place) => writeln!(out, "cr2 0x{cr2:x} walk 0x{place:x}"),
        None => writeln!(out, "cr2 0x{cr2:x} walk none"),
    }
}

// The address that an item probes, if it is a probe.
fn probed_address(item: &Option<Call>) -> Option<u64>
    ensures { result ≡ probed_address item.now }
{
    match item {
        Some(Call::Probe { at, .. }) => Some(*at),
        _ => None,
    }
}

impl Respond for Traced {
    ghost responds = { IsTracing };

    ghost responds_none = { tracing_none };

    ghost responds_on = { tracing_on };

    // As the machine responds, and then the walk of a probe.
    fn respond(&mut self, item: Option<Call>, output: &mut String) -> Result<(), AllocError> {
        let probed = probed_address(&item);
        self.machine.respond(item, output)?;
        match probed {
            Some(at) => push_walk(output, &self.machine, at),
            None => Ok(()),
        }
    }
}
