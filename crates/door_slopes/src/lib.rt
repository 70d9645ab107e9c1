//! The two doors of swinging-door compression (after Bristol).
//!
//! A line from the hinge fits if it comes within a deviation of each value since. Two of these values decide that. The
//! upper door is the value whose slope from the hinge, raised by the deviation, is least. The lower door is the value
//! whose slope, lowered by the deviation, is greatest. The model is the hinge, the deviation and the two doors, all in
//! range, with the doors after the hinge.
//!
//! The contracts hold for every list of values whose doors these are. A line is admitted exactly if every value of the
//! list admits it. After a swing the doors are those of the list with the new value. Slopes are compared exactly, in at
//! most two counted steps a call. No call allocates memory, and none is refused.
#![tactic(auto)]

mod doors;

pub use doors::{Doors, same_doors};
pub use trend_num::{Point, Steps};
