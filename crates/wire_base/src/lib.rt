//! What every layer of the agent stands on: lists of bytes, text, names, little-endian fields and strings, readers
//! that say where a record is faulty, what an answer of the authentication server may be, and sets of numbers, kept
//! as ranges.
#![tactic(auto)]

mod bytes;
mod fields;
mod list;
mod name;
mod range;
mod ranges;
mod reader;
mod shape;
mod text;

pub use bytes::{Bytes, NoMemory};
pub use fields::{get_str, get_u16, get_u32, get_u64, put_str, put_u16, put_u32, put_u64};
pub use list::List;
pub use name::{AuthInfo, Name};
pub use ranges::Ranges;
pub use reader::{
    BadField, CodecFault, block_at, end_at, short_block_at, string_at, text_at, u8_at, u16_at,
    u32_at, u64_at,
};
pub use shape::Shape;
pub use text::{Text, TextList, check_text};
