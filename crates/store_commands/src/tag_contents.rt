// The contents of tags.
ghost use Rattle.std.specs.Prelude.{◌≡◌, IfOk};
ghost use Rattle.trend_model.specs.{listed};
ghost use Rattle.store_commands.specs.TagContents.{AreContentsOf};

use late_insert::Content;
use std::alloc::Global;
use tag_core::TagCore;
use trend_num::WantOfMemory;

// Builds the content of each tag from its records.
pub(crate) fn contents_of(alloc: Global, cores: &[TagCore]) -> Result<Vec<Content>, WantOfMemory>
    ensures { IfOk result (λ contents. AreContentsOf cores.now contents.items) }
{
    let mut contents = Vec::new(alloc);
    for core in cores {
        let content = content_of(alloc, core)?;
        contents.push(content)?;
    }
    Ok(contents)
}

// Builds the content of a tag from its records.
fn content_of(alloc: Global, core: &TagCore) -> Result<Content, WantOfMemory>
    ensures { IfOk result (λ content. content.records ≡ listed core.now.state.records) }
{
    Content::from_records(alloc, core.recs(), 0)
}
