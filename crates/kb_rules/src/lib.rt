//! The conflict rules: how three trees are merged.
#![tactic(auto)]

mod fates;
mod found;
mod hosts;
mod joins;
mod kept;
mod laws;
mod merged;
mod merging;
mod names;
mod places;
mod report;
mod seats;
mod sides;
mod splits;
mod stamp;
mod walks;

pub use found::place;
pub use laws::{device, few, merge_laws, moment, rule_laws};
pub use merged::merged_row;
pub use merging::{joins as joined_count, merge_rows};
pub use names::{all_places, conflicted, merged_places};
pub use places::{Place, Places, place_of};
pub use report::{Merged, Report};
pub use seats::{Seats, seats_of};
pub use sides::Sides;
pub use splits::{all_ids, copies_of, splits_of};
pub use stamp::Stamp;
