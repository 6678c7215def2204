// The truth of all rows over a lasso, cycle by cycle from the end, in rounds (02, request 5). Each cycle is filled by
// `cycle_rows::fill_cycle`, from its signals and the rows one cycle on; what happens between rounds (`between_rounds`) fills none.
#![tactic(auto)]

pub mod looped;
pub mod record;
pub mod round;
pub mod spread;
