// The line of a tag.
use crate::reported::Reported;
use std::alloc::Global;
use tag_cell::TagHistory;
use trend_num::{TagDef, WantOfMemory};
use trend_report::{line_of, tag_text};

impl Reported for TagHistory {
    ghost use Rattle.session_report.specs.Report.{tag_line};

    type Def = TagDef;

    ghost lines = { tag_line };

    fn lines(&self, alloc: Global, def: &TagDef) -> Result<String, WantOfMemory> {
        let line = line_of(def.name, self.recs.as_slice(), &self.summary)?;
        tag_text(alloc, &line)
    }
}
