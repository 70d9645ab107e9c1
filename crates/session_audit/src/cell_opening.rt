// The copy of a cell's opening, and the comparison of the cell with it.
ghost use Rattle.std.specs.Prelude.{◌≡◌, ◌↔◌, All, IfErr, IsTrue, OnOk, length, take};
ghost use Rattle.session_audit.specs.CellOpenings.{FirstDiffer, IsItem, RecordsDiffer, opening_items};

use crate::opening::{Difference, Opened};
use disk_model::Disk;
use plant_status::{Seen, Unit};
use std::alloc::Global;
use tag_cell::{Cell, TagOpening};
use trend_num::{Rec, TagDef, WantOfMemory, same_name, same_rec, same_summary, same_tuning};

/// A copy of a tag's opening, with its definition.
#[derive(Drop)]
pub struct Kept {
    pub def: TagDef,
    pub opening: TagOpening,
}

impl<D: Disk> Opened for Cell<D> {
    ghost use Rattle.plant_status.specs.declared.unit.Unit.TheVariants.{Tag};
    ghost use Rattle.session_audit.specs.CellOpenings.{IsCellAsKept, IsCellCopied, IsCellDifference};

    type Kept = Kept;

    ghost is_copied = { IsCellCopied };

    ghost is_as_kept = { IsCellAsKept };

    ghost differs = { IsCellDifference };

    ghost unit_of = { Tag };

    fn copy(&self, alloc: Global) -> Result<Kept, WantOfMemory> {
        let opening = self.opening();
        let recs = Vec::from_slice(alloc, opening.recs.as_slice())?;
        Ok(Kept {
            def: *self.def(),
            opening: TagOpening {
                recs,
                summary: opening.summary,
                moment: opening.moment,
                faults: opening.faults,
            },
        })
    }

    fn compare(&self, known: &Kept) -> Result<(), Difference> {
        let opening = self.opening();
        let found = opening_items(self.def(), opening);
        compare_items(&found, &opening_items(&known.def, &known.opening))?;
        compare_records(&opening.recs, &known.opening.recs)
    }

    fn unit_of(tag: u32) -> Unit {
        Unit::Tag(tag)
    }
}

// Returns what is compared before the records, in turn.
fn opening_items(def: &TagDef, opening: &TagOpening) -> [Seen; 5]
    ensures { result ≡ opening_items def.now opening.now }
{
    [
        Seen::Def(*def),
        Seen::Number(opening.faults),
        Seen::Number(opening.moment),
        Seen::Summary(opening.summary),
        Seen::Number(opening.recs.len() as u64),
    ]
}

// Compares these in turn, and returns the first that differs.
fn compare_items(found: &[Seen; 5], known: &[Seen; 5]) -> Result<(), Difference>
    requires { All IsItem found.now }
    ensures same { OnOk result (found.now ≡ known.now) }
    ensures differs { IfErr result (λ d. FirstDiffer found.now known.now d.kept d.told) }
{
    for i in 0..5 {
        if !same_item(&found[i], &known[i]) {
            return Err(Difference {
                kept: found[i],
                told: known[i],
            });
        }
    }
    Ok(())
}

// Returns whether two items are the same.
fn same_item(a: &Seen, b: &Seen) -> bool
    requires { IsItem a.now }
    ensures { IsTrue result ↔ (a.now ≡ b.now) }
{
    match (a, b) {
        (Seen::Def(a), Seen::Def(b)) => same_def(a, b),
        (Seen::Number(a), Seen::Number(b)) => a == b,
        (Seen::Summary(a), Seen::Summary(b)) => same_summary(a, b),
        _ => false,
    }
}

// Returns whether two definitions have the same name, tuning and kind.
fn same_def(a: &TagDef, b: &TagDef) -> bool
    ensures { IsTrue result ↔ (a.now ≡ b.now) }
{
    same_name(&a.name, &b.name) && same_tuning(&a.tuning, &b.tuning) && a.step == b.step
}

/// Compares records that are known with the first of those that were found. A difference has two numbers: how many of
/// the known records are the same before it (`kept`), and how many are known (`told`).
pub fn compare_records(found: &[Rec], known: &[Rec]) -> Result<(), Difference>
    ensures same { OnOk result (known.now ≡ take (length known.now) found.now) }
    ensures differs { IfErr result (λ d. RecordsDiffer found.now known.now d.kept d.told) }
{
    for i in 0..known.len() {
        if i >= found.len() || !same_rec(&found[i], &known[i]) {
            return Err(Difference {
                kept: Seen::Number(i as u64),
                told: Seen::Number(known.len() as u64),
            });
        }
    }
    Ok(())
}
