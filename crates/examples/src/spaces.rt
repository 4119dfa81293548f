//! An address space: pages are mapped at a place or a free one, written to, given other rights, and unmapped.
use address_space::Space;
use paging_core::Rights;

const DATA: Rights = Rights {
    write: true,
    user: true,
    fetch: false,
};

const READ: Rights = Rights {
    write: false,
    user: true,
    fetch: false,
};

pub(crate) fn run(rt: &HostRuntime) -> anyhow::Result<()> {
    let mut space = Space::new(rt.alloc(), 16)?;
    change(rt, &mut space)
}

// Changes the pages of a space, and prints the results.
fn change(rt: &HostRuntime, space: &mut Space) -> anyhow::Result<()> {
    space.map_at(0x1000, 2, DATA)?;
    let start = space.place(0x1000, 0x8000, 2, DATA)?;
    println!(rt;
        "two pages at {start:#x}, {} frames left",
        space.free_frames()
    )?;
    space.store(0x2ffe, b"abcd", true)?;
    space.protect(0x2000, 1, READ)?;
    if let Err(fault) = space.store(0x2ffe, b"efgh", true) {
        println!(rt; "{fault}")?;
    }
    let bytes = space.load(0x2ffe, 4, true)?;
    println!(rt; "bytes {:?}", bytes.as_slice())?;
    for area in space.areas(rt.alloc())?.as_slice() {
        println!(rt;
            "{:#x}, {} pages, {:?}",
            area.start, area.pages, area.rights
        )?;
    }
    println!(rt; "{} pages unmapped", space.unmap(0, 16)?)?;
    Ok(())
}
