//! The program `walk_image`: the accesses of a processor over page tables that it is given, which may be any words.
#![tactic(auto)]

mod filling;
mod walking;

use filling::fill;
use paging_core::{Frames, PhysAddr, PhysFrame};
use std::alloc::Global;
use std::io;
use walking::push_walk;

const VERSION: &str = "\
walk_image 0.1.0
";

const HELP: &str = "\
walk_image 0.1.0: accesses of a processor over any page tables

Usage: walk_image

Standard input has numbers, each of hexadecimal digits, with white space between
them: the bits of a physical address, the frames of the memory, the address of
the root table, how many words are not 0, the address and the value of each, and
then addresses. For each of these it prints a line: the address, and then for a
read, a write and a fetch by the supervisor, and the same by the user, either the
physical address of the byte, or `fault:` and the code of the page fault. An
address that is not canonical has the line `none`.
";

fn numbers(alloc: Global, text: &str) -> anyhow::Result<Vec<u64>> {
    let mut found = Vec::new(alloc);
    for word in text.split_whitespace() {
        found.push(u64::from_str_radix(word, 16)?)?;
    }
    Ok(found)
}

fn walks(alloc: Global, numbers: &[u64]) -> anyhow::Result<String> {
    let [width, count, root, words, rest @ ..] = numbers else {
        anyhow::bail!("too few numbers");
    };
    if *width > 52
        || *count >= 1 << 32
        || *root >= 1 << 52
        || *words > 1 << 32
        || 2 * *words > rest.len() as u64
    {
        anyhow::bail!("a number is too great");
    }
    let (pairs, addresses) = rest.split_at(2 * *words as usize);
    let mut frames = Frames::new(alloc, *count as u32)?;
    fill(&mut frames, pairs);
    let root = PhysFrame::containing_address(PhysAddr::new(*root));
    let mut out = String::new(alloc);
    for address in addresses {
        push_walk(&mut out, &frames, root, *width as u8, *address)?;
    }
    Ok(out)
}

fn main(rt: HostRuntime) -> anyhow::Result<()> {
    let alloc = rt.alloc();
    let arguments: Vec<String> = std::env::args(&rt)?.collect(alloc)?;
    match arguments.as_slice() {
        [_, word] if word.as_bytes() == b"--help".as_slice() => print!(rt; "{HELP}")?,
        [_, word] if word.as_bytes() == b"--version".as_slice() => print!(rt; "{VERSION}")?,
        _ => {
            let given = io::read_to_string(alloc, rt.reader())?;
            let text = walks(alloc, &numbers(alloc, &given)?)?;
            print!(rt; "{text}")?
        }
    }
    Ok(())
}
