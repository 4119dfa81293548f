//! Page tables as lines: the root, and below each table what its entries lead to, in order. If entries one after the
//! other map frames one after the other, of one owner and with equal rights and types, they are one line.
#![tactic(auto)]

mod entries;
mod joining;
mod laws;
mod lines;
mod owners;
mod reading;
mod rows;
mod tables;
mod uses;

pub use laws::{each_frame_is_counted_once, each_page_is_in_its_line};
pub use lines::Line;
pub use owners::{Owned, Owner};
pub use reading::table_lines;
pub use tables::{push_tables, tables_height};
pub use uses::Use;
