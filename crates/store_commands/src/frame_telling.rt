// The text about the frames of a calculation.
ghost use Rattle.std.specs.Prelude.{◌≤◌, IfOk, length, string_bytes};
ghost use Rattle.store_commands.specs.FrameLines.{AreTimes, TellsFrames};

use crate::frame_lines::frames_text;
use crate::frame_row::changes;
use event_frames::{CalcValue, new_frames};
use std::alloc::Global;
use tag_base::GroupDef;
use trend_num::WantOfMemory;

// Returns the text about a calculation of this group, from its saved row and its refreshed one. Frames count if they
// have at least `least` windows.
pub(crate) fn tell_frames(
    alloc: Global,
    group: &GroupDef,
    least: u32,
    saved: &[CalcValue],
    refreshed: &[CalcValue],
) -> Result<String, WantOfMemory>
    requires some { 1 ≤ least }
    requires period { 1 ≤ group.now.period }
    requires grown { length saved.now ≤ length refreshed.now }
    requires times { AreTimes group.now (length refreshed.now) }
    ensures { IfOk result (λ text. TellsFrames group.now least saved.now refreshed.now (string_bytes text)) }
{
    let mut frames = new_frames(alloc, least, saved)?;
    let changes = changes(alloc, saved, refreshed)?;
    let edits = frames.apply(&changes)?;
    let list = frames.list()?;
    frames_text(alloc, group, &edits, &list)
}
