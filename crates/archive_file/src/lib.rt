//! The bytes of a tag's archive, and the bytes of the fields that all layouts share.
//!
//! **Records and summaries.** A number is written with its most significant byte first, a value in two's complement.
//! Each record and each summary that is in range has exactly one spelling. A read returns what the bytes spell, or
//! refuses them. [`put_records`] writes records to a device in one write. [`read_records`] reads them, or reports the
//! first byte of the first field that breaks the layout. Other layouts share [`read_bytes`], [`put`], [`put_point`],
//! [`take_number`] and [`take_point`].
//!
//! **Windows over a device.** A [`Window`] shows the bytes of a device from a place on, as many as were asked for or as
//! are there. What it reads holds of all bytes from that place on, which a proof names by [`Rest`].
//!
//! **Blocks behind gates.** [`read_blocks`] goes over the blocks of a device up to the first closed gate, or reports the
//! first field that breaks the layout (`specs/BlockFiles.antt`). A [`BlockReader`] knows the fields of its blocks, and
//! keeps what they give. At no time are the bytes of more than one block in memory.
//!
//! **Fields of a layout in memory.** A layout is a list of fields, one after the other. A [`Field`] is its place, its
//! number of bytes, and whether these bytes keep the rule of the field. [`check`] refuses the first field that is not
//! there or that breaks its rule (`specs/LayoutFields.antt`). If the image ends before the field does, the error has
//! the image's length as its place. Otherwise it has the place of the field's first byte. [`byte_at`], [`short_at`] and
//! [`long_at`] read numbers with the most significant byte first. Bytes that are not there count as zeros.
//!
//! **Heads with a text.** A layout may begin with four letters and a text (`specs/TextHeads.antt`). [`begin_layout`]
//! begins such a layout on a device, and [`read_text`] reads its text, and no more of the device than the head. If a
//! crash comes while a layout is begun, the device has what a crash might have left before, no finished layout, or this
//! layout without blocks. [`close_layout`] closes the gate of any layout before another is written.
#![tactic(auto)]

mod block_file;
mod failure;
mod field;
mod head_reader;
mod head_writer;
mod layout_field;
mod log;
mod record;
mod summary;
mod window;

pub use block_file::{BlockReader, read_blocks};
pub use failure::{DeviceFault, PutNo, ScanNo};
pub use field::{put, put_point, take_number, take_point};
pub use head_reader::read_text;
pub use head_writer::{begin_layout, close_layout};
pub use layout_field::{Field, byte_at, check, long_at, short_at};
pub use log::{put_records, read_bytes, read_records};
pub use record::{REC_LEN, rec_bytes, rec_of};
pub use summary::{SUMMARY_LEN, summary_bytes, summary_of};
pub use trend_num::{Kind, Point, Rec, Summary, Tuning};
pub use window::{Rest, Window};
