//! A group of a running plant, as it lies under its lock.
//!
//! A [`Book`] holds a sheet and a tape. The sheet is the group's calculated rows and the records that they are made of.
//! Each refresh, each answer and each save on a device adds one turn to the tape. A turn records the versions that the
//! refresh reached, the answer, or the number and moment of the save.
//!
//! Whoever takes a lock knows of its content only what the type guarantees. So the type keeps all that a session knows
//! once its workers have ended:
//!
//! * The history is legal (`specs/Histories.antt`): versions never fall, each answer is the value from scratch at the
//!   versions of its place, and the rows at the end are from scratch.
//! * What a crash leaves of the group's device stands for the versions and rows of the last save or of a refresh since
//!   (`specs/Crashes.antt`).
//!
//! Answers and rows are from scratch in each window if the opening of the book is right. That of a new book is. In any
//! case they are so in each window that was due since the opening, and any other window has the values of the opening.
//!
//! [`Book::refresh`] pulls from the cell of each input under its lock, in the order of the inputs. [`Book::publish`]
//! takes what was pulled into account. [`Book::refresh_from`] takes the records from lists instead, one list for each
//! tag. It is the one refresh from records, for an archive that has no cells.
//!
//! [`load`] opens a book over the device of its group. [`Book::save`] adds one block to the device: the rows that
//! changed since the last save. [`new_book`] makes a book without a device, whose saves do nothing and leave no turn. A
//! refused call changes nothing of the book. The one exception is a save whose device failed: the book is then broken,
//! and refuses every later save. Its other calls still work. [`Book::into_history`] returns all that the type keeps.
#![tactic(auto)]

mod ask;
mod book;
mod changes;
mod history;
mod lists;
mod loading;
mod making;
mod publish;
mod refresh;
mod refusal;
mod save;
mod saved_rows;
mod turn;
mod unsaved;

pub use book::Book;
pub use history::{GroupHistory, GroupOpening};
pub use loading::load;
pub use making::new_book;
pub use refusal::{LoadFail, LoadNo, RefreshNo, SaveNo};
pub use turn::Turn;
