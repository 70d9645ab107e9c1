// The lines of `frames`.
ghost use Rattle.std.specs.Prelude.{◌≡◌, ◌++◌, All, IfOk, OnOk, codes, string_bytes};
ghost use Rattle.std.specs.List.{flat_map};
ghost use Rattle.store_commands.specs.FrameLines.{IsFrameTimed, edit_text, frame_of, frame_text, frames_text};

use event_frames::{Edit, Frame};
use std::alloc::{AllocError, Global};
use tag_base::GroupDef;
use trend_num::WantOfMemory;

// Returns a line for each edit, and then one for each frame, of a calculation of this group.
pub(crate) fn frames_text(
    alloc: Global,
    group: &GroupDef,
    edits: &[Edit],
    frames: &[Frame],
) -> Result<String, WantOfMemory>
    requires edits { All (λ edit. IsFrameTimed group.now (frame_of edit)) edits.now }
    requires frames { All (IsFrameTimed group.now) frames.now }
    ensures { IfOk result (λ text. string_bytes text ≡ frames_text group.now edits.now frames.now) }
{
    let mut text = String::new(alloc);
    put_edits(&mut text, group, edits)?;
    put_frames(&mut text, group, frames)?;
    Ok(text)
}

// Appends the line of each edit.
fn put_edits(text: &mut String, group: &GroupDef, edits: &[Edit]) -> Result<(), AllocError>
    requires { All (λ edit. IsFrameTimed group.now (frame_of edit)) edits.now }
    ensures { OnOk result (string_bytes text.new ≡ string_bytes text.old ++ flat_map (edit_text group.now) edits.now) }
{
    for edit in edits {
        put_edit(text, group, *edit)?;
    }
    Ok(())
}

// Appends the line of an edit.
fn put_edit(text: &mut String, group: &GroupDef, edit: Edit) -> Result<(), AllocError>
    requires { IsFrameTimed group.now (frame_of edit) }
    ensures { OnOk result (string_bytes text.new ≡ string_bytes text.old ++ edit_text group.now edit) }
{
    match edit {
        Edit::Gone(frame) => put_frame(text, "gone", group, frame),
        Edit::New(frame) => put_frame(text, "new", group, frame),
    }
}

// Appends the line of each frame.
fn put_frames(text: &mut String, group: &GroupDef, frames: &[Frame]) -> Result<(), AllocError>
    requires { All (IsFrameTimed group.now) frames.now }
    ensures { OnOk result (string_bytes text.new
        ≡ string_bytes text.old ++ flat_map (frame_text (codes "frame") group.now) frames.now) }
{
    for frame in frames {
        put_frame(text, "frame", group, *frame)?;
    }
    Ok(())
}

// Appends the line of a frame: when it begins and when it ends, in milliseconds from 1970, and whether it is open.
fn put_frame(
    text: &mut String,
    word: &str,
    group: &GroupDef,
    frame: Frame,
) -> Result<(), AllocError>
    requires { IsFrameTimed group.now frame }
    ensures { OnOk result (string_bytes text.new ≡ string_bytes text.old ++ frame_text word.now group.now frame) }
{
    let from = group.start + frame.from * group.period;
    let to = group.start + (frame.upto + 1) * group.period;
    write!(text, "{word} {from} {to}")?;
    if frame.last {
        text.push_str(" open")?;
    }
    text.push_str("\n")
}
