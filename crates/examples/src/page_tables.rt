//! Page tables: pages are mapped, the walk finds their frames, and a word is reached through it.
use paging_core::{
    FramePool, Frames, Page, Rights, VirtAddr, make_root, map_range, missing_tables, store_word,
    walk,
};

const DATA: Rights = Rights {
    write: true,
    user: false,
    fetch: false,
};

pub(crate) fn run(rt: &HostRuntime) -> anyhow::Result<()> {
    let mut frames = Frames::new(rt.alloc(), 64)?;
    let mut pool = FramePool::new(rt.alloc(), 64)?;
    let Some(root) = make_root(&mut frames, &mut pool) else {
        anyhow::bail!("no frame for the root table");
    };
    let tables = missing_tables(&frames, root, 0x400, 3);
    if tables + 3 > pool.free_count() {
        anyhow::bail!("too few frames");
    }
    let first = Page::containing_address(VirtAddr::new(0x40_0000));
    map_range(&mut frames, &mut pool, root, first, 3, DATA.bits());
    println!(rt;
        "{tables} tables for 3 pages, {} frames left",
        pool.free_count()
    )?;
    for address in [0x40_0000, 0x40_1000, 0x40_2000, 0x40_3000] {
        let page = Page::containing_address(VirtAddr::new_truncate(address));
        match walk(&frames, root, page) {
            Some(mapped) => println!(rt; "{address:#x} is in frame {}", mapped.frame.number())?,
            None => println!(rt; "{address:#x} is not mapped")?,
        }
    }
    // The word is stored by its address, and is then in the frame that the walk found.
    let word = VirtAddr::new(0x40_1008);
    if let Some(mapped) = walk(&frames, root, Page::containing_address(word)) {
        store_word(&mut frames, root, word, 77);
        let (frame, value) = (mapped.frame.number(), frames.word(mapped.frame, 1));
        println!(rt; "word 1 of frame {frame} is {value}")?;
    }
    Ok(())
}
