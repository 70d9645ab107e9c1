//! A group's sheet: its calculated rows, kept up to date.
//!
//! A clause sees of a sheet the group, its grid, the records of the inputs that were taken into account, the rows, and
//! how many values were evaluated. `sheet_law` defines what rows are from scratch, and which windows records touch.
//!
//! `apply` takes more records of each input. If the rows were from scratch before, they are from scratch afterwards.
//! Only the windows that are newly complete or touched are evaluated. The sheet keeps the content of each input next to
//! its records. The content gives the stretch of a late record before the record is put in. `apply` takes all memory
//! before it changes anything, so a refused call leaves the sheet as it was.
//!
//! No clause states how long a call takes. The code goes once over the new records, and once over a row of marks, one for
//! each complete window. It evaluates the windows that are due, and `due` tells which these were. A content without room
//! for the new records is made anew from all records of its input, with room for a quarter more. `from_saved` gives the
//! contents that room at once.
#![tactic(auto)]

mod definition;
mod evaluation;
mod limit;
mod mark;
mod refresh;
mod refusal;
mod room;
mod saved;
mod sheet;
mod taking;
mod window;

pub use calc_eval::{Bad, CalcDef, CalcValue, CheckNo, Checked, check};
pub use definition::GroupDefParts;
pub use refusal::SheetNo;
pub use room::room_in_rows;
pub use saved::from_saved;
pub use sheet::{Sheet, SheetParts, new_sheet};
pub use trend_num::{Kind, Point, Rec, Steps, WantOfMemory};
