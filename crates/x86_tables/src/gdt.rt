//! The global descriptor table.

mod descriptor;
mod descriptor_flags;
mod global_descriptor_table;

pub use descriptor::Descriptor;
pub use descriptor_flags::DescriptorFlags;
pub use global_descriptor_table::{Entry, GlobalDescriptorTable};
