// The value of a tag in a window.
ghost use Rattle.std.specs.Prelude.{◌≡◌, ◌≤◌};
ghost use Rattle.trend_num.specs.{last_time};
ghost use Rattle.plant_more.specs.ShiftTags.{shift_value_of};

use crate::shift_tag::ShiftTag;
use shift_calendar::{Measure, ShiftWindow};
use weighted_total::window_value;

// Returns the measure of a tag in a window, by its line or its stair. It returns None if the window has no value, or
// does not end after its start.
pub(crate) fn value_of(tag: &ShiftTag, measure: Measure, shift: &ShiftWindow) -> Option<i128>
    requires { shift.now.to ≤ last_time }
    ensures { result ≡ shift_value_of measure shift.now tag.now }
{
    let ShiftWindow { from, to, .. } = *shift;
    if to <= from {
        return None;
    }
    window_value(&tag.content, tag.held, tag.step, measure, from, to)
}
