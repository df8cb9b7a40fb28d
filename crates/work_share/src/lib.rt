//! What commands cost to carry out, and how many of a desk may be under way.

#![tactic(auto)]

mod audiences;
mod costs;
mod load;

pub use audiences::{Audiences, Sample};
pub use costs::{
    BUDGET, Costs, DESKS, GREEDY, SHARE, Standing, WIDEST, first_in_line_goes,
    others_keep_to_shares, whoever_stands_in_line_waits, window, window_among,
};
pub use load::{LineStep, Load, Noted};
