//! The areas of a journal: a disk has two, one of them live, each with a snapshot and blocks of commands behind gates.

#![tactic(auto)]

mod area;
mod batch;
mod closing;
mod faults;
mod formatting;
mod header;
mod law;
mod naming;
mod pieces;
mod put;
mod reading;
mod version;

pub use area::Area;
pub use faults::{AreaFault, FormatFault, ReadFault};
pub use formatting::{MakeFault, format, header_of, make};
pub use law::{an_image_has_one_reading, bytes_that_are_written_back_are_not_read};
pub use pieces::{LentBytes, Pieces};
pub use put::{closed, closed_snapshot};
pub use version::Version;
