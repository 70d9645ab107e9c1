//! One tag of a running plant, as it lies under its lock.
//!
//! A cell has the core of a tag, the content of its records, the journal of its device, the board on which it posts,
//! and a tape. Each call that succeeds leaves one entry on the tape: what was taken, answered, handed out or
//! acknowledged. Only a commit for which no value waits leaves none. The model of a cell is the tag's definition,
//! opening, tape and state, the model of its journal, and the room of its tape.
//!
//! Whoever takes the lock knows of the cell only what its type guarantees. So the type keeps all that a session knows
//! once its workers have ended:
//!
//! - The tape replays from the opening (`specs/Replays.antt`). Each take on it found room for its records, so no take
//!   brings a tag more records than it may have.
//! - The content is that of the records.
//! - The last snapshot that the poster posted is the tag's own.
//! - A crash at any moment since the opening leaves the opening followed by the oldest takes. These include all that a
//!   commit had acknowledged by then (`specs/Crashes.antt`).
//!
//! By a law, a replayed tape is legal for every history for which its opening stands.
//!
//! A take needs no memory. It succeeds if the cell is not broken, and has room for the take and its records. A refused
//! call changes nothing, with one exception: a device fault breaks the cell. A broken cell refuses takes and commits,
//! and still serves questions and pulls.
#![tactic(auto)]

mod batch;
mod cell;
mod commit;
mod entry;
mod history;
mod law;
mod opening;
mod reading;
mod value;

pub use cell::Cell;
pub use entry::{Acked, CommitNo, Entry, PullNo, Pulled, Receipt, TakeNo};
pub use history::{TagHistory, TagOpening};
pub use law::{a_replayed_history_is_bounded, a_replayed_history_is_legal};
pub use opening::open_cell;
