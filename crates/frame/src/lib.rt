// Frame metadata: document 01, "Frame metadata (001) and packets", after source 001. `packet` reads the payload header around it.
// A block is read item by item, each item once in a call, and a payload is handed back as a part of the block, with no copy; an id that
// 01 does not know is marked (#105 of document 02). The writer puts one item, of a known id, at a place of a lent buffer.
// The rules for ids, the longest block and the refusals' numbers each stand in one place.
// Every function takes any bytes; where it refuses, no byte is written.
#![tactic(auto)]

mod blocks;
mod ids;
mod items;
mod refusals;
mod view;
mod writer;

pub use blocks::{LONGEST_BLOCK, count, item};
pub use items::Item;
pub use refusals::Refusal;
pub use view::{ItemView, item_view};
pub use writer::append;
