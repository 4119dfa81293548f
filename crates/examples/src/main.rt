//! Five programs over the crates of this repository, each a module that can be the `main` of a crate of its own.
#![tactic(auto)]

mod flat_heap;
mod interval_tree;
mod page_tables;
mod served_calls;
mod spaces;

fn main(rt: HostRuntime) -> anyhow::Result<()> {
    println!(rt; "a heap over words of your own")?;
    flat_heap::run(&rt)?;
    println!(rt; "\nan interval tree")?;
    interval_tree::run(&rt)?;
    println!(rt; "\npage tables and a walk")?;
    page_tables::run(&rt)?;
    println!(rt; "\nan address space")?;
    spaces::run(&rt)?;
    println!(rt; "\na machine that is served call by call")?;
    served_calls::run(&rt)
}
