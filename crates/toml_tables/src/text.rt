// From bytes to a table.
ghost use Rattle.std.specs.Prelude.{◌≡◌, false, IfOk, None, Ok, option_map};
ghost use Rattle.std.specs.Str.{is_utf8};
ghost use Rattle.toml.specs.View.{table_view};
ghost use Rattle.toml_tables.specs.Tables.{document};

use std::alloc::Global;
use toml::Table;
use trend_num::WantOfMemory;

/// Returns the document that bytes spell, if they spell one: UTF-8, and TOML as `toml` reads it, with its limit on
/// nesting.
#[tactic(auto, using(crate::proofs::Documents::no_document, crate::proofs::Documents::document_of))]
pub fn document(alloc: Global, bytes: &[u8]) -> Result<Option<Table>, WantOfMemory>
    ensures value { IfOk result (λ found. option_map table_view found ≡ document bytes.now) }

    // Bytes that are no text spell no document, however little memory there is.
    ensures no_text { is_utf8 bytes.now ≡ false → result ≡ Ok None }
{
    let Ok(text) = str::from_utf8(bytes) else {
        return Ok(None);
    };
    match toml::table_from_str(alloc, text) {
        Ok(table) => Ok(Some(table)),
        Err(e) if e.is_memory() => Err(WantOfMemory),
        Err(_) => Ok(None),
    }
}
