// Why a base or a plan is refused.
ghost use Rattle.std.specs.Prelude.{◌≡◌, ◌≤◌, Ok, OnOk};
ghost use Rattle.tag_base.specs.Answers.{broken, limited};

use std::alloc::AllocFailed;
use thiserror::Error;
use trend_num::{WantOfMemory, What};

/// Why a text is refused as a base or as a plan.
#[derive(Debug, Clone, Copy, PartialEq, Eq, Error)]
pub enum TextNo {
    /// The table at `place` is the first that breaks a rule, and `rule` is the first rule that it breaks. Places are
    /// counted from 0 in the table's own array. If the text as a whole breaks the rule, `place` is 0. For a formula
    /// that does not parse, `at` is the byte at which it is refused; otherwise it is 0.
    #[error("rule {rule} is broken at table {place}, byte {at}")]
    BadText { rule: u8, place: u32, at: u32 },
    /// There are `number` of `what`, which is above the limit.
    #[error("too many of {what:?}: {number}")]
    Limit { what: What, number: u64 },
    /// There was not enough memory.
    #[error("out of memory")]
    WantOfMemory,
}

impl From<WantOfMemory> for TextNo {
    ghost use Rattle.std.specs.Prelude.{◌≡◌};
    ghost use Rattle.tag_base.specs.declared.refusal.TextNo.TheVariants.{WantOfMemory};

    ghost from_gives = { λ _ why. why ≡ WantOfMemory };

    fn from(_: WantOfMemory) -> TextNo {
        TextNo::WantOfMemory
    }
}

impl<T: Drop> From<AllocFailed<T>> for TextNo {
    ghost use Rattle.std.specs.Prelude.{◌≡◌};
    ghost use Rattle.tag_base.specs.declared.refusal.TextNo.TheVariants.{WantOfMemory};

    ghost from_gives = { λ _ why. why ≡ WantOfMemory };

    fn from(_: AllocFailed<T>) -> TextNo {
        TextNo::WantOfMemory
    }
}

// Returns `Limit` if the count is above its limit.
pub(crate) fn limited(what: What, most: usize, count: usize) -> Result<(), TextNo>
    ensures answer { result ≡ limited what most count (Ok tt) }
    ensures within { OnOk result (count ≤ most) }
{
    if count > most {
        return Err(TextNo::Limit {
            what,
            number: count as u64,
        });
    }
    Ok(())
}

// The refusal of the table at a place that breaks a rule.
pub(crate) fn broken(rule: u8, place: usize) -> TextNo
    ensures { result ≡ broken rule place }
{
    TextNo::BadText {
        rule,
        place: u32::try_from(place).unwrap_or(u32::MAX),
        at: 0,
    }
}
