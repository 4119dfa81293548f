//! An interval tree: which mappings of a process meet a range of addresses.
use meminterval::{Interval, IntervalTree};

const MAPPINGS: [(u64, u64, &'static str); 4] = [
    (0x1000, 0x5000, "text"),
    (0x5000, 0x6000, "data"),
    (0x7000, 0x9000, "file"),
    (0xf000, 0x10000, "stack"),
];

pub(crate) fn run(rt: &HostRuntime) -> anyhow::Result<()> {
    let alloc = rt.alloc();
    let mut tree = IntervalTree::new();
    for (start, end, name) in MAPPINGS {
        if tree.size() < 1_000 {
            tree.insert(alloc, Interval::new(start, end), name)?;
        }
    }
    println!(rt; "from 0x4000 to 0x8000:")?;
    for pair in tree.query(alloc, Interval::new(0x4000, 0x8000))? {
        let (start, end) = (pair.interval.start, pair.interval.end);
        println!(rt; "{} from {start:#x} to {end:#x}", pair.value)?;
    }
    tree.delete(&Interval::new(0x5000, 0x6000));
    println!(rt; "{} are left", tree.size())?;
    Ok(())
}
