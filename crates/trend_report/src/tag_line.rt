// The line of a tag.
ghost use Rattle.std.specs.Prelude.{◌≡◌, ◌++◌, codes, IfOk, OnOk, string_bytes};
ghost use Rattle.std.specs.List.{count_by};
ghost use Rattle.trend_report.specs.Lines.{counts_text, is_kept, tag_line_of, tag_text};

use crate::point_text::put_held;
use std::alloc::{AllocError, Global};
use trend_num::{Kind, Name, Point, Rec, Summary, WantOfMemory};

/// What a session has made of a tag, as its line prints it.
#[derive(Clone, Copy, Debug, PartialEq, Eq)]
pub struct TagLine {
    pub name: Name,
    /// How many events (raw values and retunings) the tag has taken since it began.
    pub taken: u64,
    /// How many records the tag has, kept and late ones together.
    pub records: u32,
    pub kept: u32,
    pub late: u32,
    /// The last value sent in order.
    pub held: Option<Point>,
}

/// Returns the line's content for a tag with this name, these records and this summary. Returns `WantOfMemory` if the
/// kept or the late records are too many for a `u32`.
#[tactic(auto, using(crate::proofs::Counts::kept_or_late))]
pub fn line_of(name: Name, recs: &[Rec], summary: &Summary) -> Result<TagLine, WantOfMemory>
    ensures { IfOk result (λ line. line ≡ tag_line_of name recs.now summary.now) }
{
    let Summary {
        taken,
        records,
        held,
        ..
    } = *summary;
    let kept = kept_count(recs);
    let late = recs.len() - kept;
    Ok(TagLine {
        name,
        taken,
        records,
        kept: u32::try_from(kept).map_err(|_| WantOfMemory)?,
        late: u32::try_from(late).map_err(|_| WantOfMemory)?,
        held,
    })
}

// How many records are kept.
fn kept_count(recs: &[Rec]) -> usize
    ensures { result ≡ count_by (λ r. is_kept r.kind) recs.now }
{
    recs.iter().filter(|r| matches!(r.kind, Kind::Kept)).count()
}

/// Returns the line `tag NAME taken=N records=R kept=K late=L held=HELD`, with its line feed. HELD is `T,V` or `none`.
/// Returns `WantOfMemory` if the memory cannot be allocated.
pub fn tag_text(alloc: Global, line: &TagLine) -> Result<String, WantOfMemory>
    ensures { IfOk result (λ text. string_bytes text ≡ tag_text line.now) }
{
    Ok(tag_line(alloc, line)?)
}

// Like `tag_text`, with the allocator's own error.
fn tag_line(alloc: Global, line: &TagLine) -> Result<String, AllocError>
    ensures { IfOk result (λ text. string_bytes text ≡ tag_text line.now) }
{
    let mut text = String::new(alloc);
    put_name(&mut text, line)?;
    put_counts(&mut text, line)?;
    put_held(&mut text, line.held)?;
    text.push_str("\n")?;
    Ok(text)
}

// Adds what comes before the counts.
fn put_name(text: &mut String, line: &TagLine) -> Result<(), AllocError>
    ensures { OnOk result (string_bytes text.new ≡ string_bytes text.old ++ (codes "tag " ++ line.now.name)) }
{
    let name = line.name.text();
    write!(text, "tag {name}")
}

// Adds the counts, and what comes before the held point.
fn put_counts(text: &mut String, line: &TagLine) -> Result<(), AllocError>
    ensures { OnOk result (string_bytes text.new ≡ string_bytes text.old ++ counts_text line.now) }
{
    let TagLine {
        taken,
        records,
        kept,
        late,
        ..
    } = *line;
    write!(
        text,
        " taken={taken} records={records} kept={kept} late={late} held="
    )
}
