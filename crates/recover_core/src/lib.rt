//! Recovery: what a disk stands for, how a journal is opened, and the store that commands are added to.

#![tactic(auto)]

mod compacting;
mod faults;
mod law;
mod making;
mod opening;
mod reading;
mod seen;
mod snapshot;
mod store;

pub use faults::OpenFault;
pub use law::{
    a_formatted_journal_stands_for_the_empty_state, an_image_stands_for_one_state,
    bytes_that_are_written_back_mean_nothing,
};
pub use making::make_holding;
pub use opening::open;
pub use reading::stored_broker;
pub use seen::{Seen, read};
pub use snapshot::restarts_fit_large_areas;
pub use store::Store;
