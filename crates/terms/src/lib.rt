//! Words that the other crates' contracts share: texts and bytes as values, hexadecimal digits,
//! refusals in their order, lists that rise; and how drops and names are written out.
#![tactic(auto)]

mod entry;
mod hexadecimal;
mod macros;
mod room;

pub use entry::{Attachments, Bytes, Entry, Text, ascii_text};
pub use hexadecimal::{digits_differ, id_text, ids_differ, read_digits, read_id, write_digits};
pub use room::{Room, Sid};
