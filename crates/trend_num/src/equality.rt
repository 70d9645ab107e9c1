// `==` of the shared types is sameness: a test that compares with `==` compares the whole value.
ghost use Rattle.std.specs.Prelude.{◌≡◌, ◌↔◌, IsTrue};

use crate::archive::{Rec, Summary};
use crate::name::Name;
use crate::tuning::Tuning;

/// Returns whether two records have the same kind and the same point, compared with `==`.
pub fn same_rec(a: &Rec, b: &Rec) -> bool
    ensures { IsTrue result ↔ (a.now ≡ b.now) }
{
    a == b
}

/// Returns whether two tunings agree in all five numbers, compared with `==`.
pub fn same_tuning(a: &Tuning, b: &Tuning) -> bool
    ensures { IsTrue result ↔ (a.now ≡ b.now) }
{
    a == b
}

/// Returns whether two summaries agree in every field, compared with `==`.
pub fn same_summary(a: &Summary, b: &Summary) -> bool
    ensures { IsTrue result ↔ (a.now ≡ b.now) }
{
    a == b
}

/// Returns whether two names have the same bytes, compared with `==`.
pub fn same_name(a: &Name, b: &Name) -> bool
    ensures { IsTrue result ↔ (a.now ≡ b.now) }
{
    a == b
}
