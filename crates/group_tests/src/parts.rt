// Random records. The rows are the same, however many records a sheet gets at once.
ghost use Rattle.std.specs.Prelude.{◌<◌, IfOk};
ghost use Rattle.calc_refresh.specs.{IsCopy};

use crate::sheets::{def_of, push_row, tell};
use crate::tables::same;
use calc_refresh::{Kind, Point, Rec, new_sheet};
use std::alloc::{AllocError, Global};
use std::process::Abort;
use std::test::Fail;
use trend_num::in_range;

// Numbers that look random; the same start gives the same numbers.
#[derive(Drop)]
struct Draws {
    state: u64,
}

impl Draws {
    // Returns the next number below a bound.
    fn below(&mut self, bound: u32) -> u32
        requires { 0 < bound }
        ensures { result < bound }
    {
        self.state = self
            .state
            .wrapping_mul(6364136223846793005)
            .wrapping_add(1442695040888963407);
        (self.state >> 33) as u32 % bound
    }

    // Returns records of some ten seconds. Two in three are Kept, and few of those are out of order.
    fn records(&mut self, alloc: Global) -> Result<Vec<Rec>, AllocError> {
        let mut recs = Vec::new(alloc);
        for i in 0..40 {
            let t = i * 250 + self.below(300);
            let (kind, t) = match self.below(3) {
                0 => (Kind::Late, t.saturating_sub(self.below(3000))),
                _ => (Kind::Kept, t),
            };
            let point = Point {
                t: u64::from(t),
                v: i64::from(self.below(100)) - 50,
            };
            recs.push(Rec { kind, point })?;
        }
        Ok(recs)
    }
}

/// Returns a copy of these records.
pub fn copy_of(rt: &impl Abort, alloc: Global, recs: &[Rec]) -> Result<Vec<Rec>, Fail>
    ensures { IfOk result (λ copy. IsCopy copy.items) }
{
    let mut copy = Vec::new(alloc);
    for rec in recs {
        assert!(rt; in_range(rec.point));
        copy.push(*rec)?;
    }
    assert!(rt; copy.len() < 1000);
    Ok(copy)
}

// Returns the rows of a new sheet that gets the records of two inputs in parts of one size.
fn rows_in_parts(
    rt: &impl Abort,
    alloc: Global,
    first: &[Rec],
    second: &[Rec],
    size: usize,
) -> Result<String, Fail>
    requires { 0 < size }
{
    let def = def_of(rt, alloc, 2, 1000, "avg('T1') ; high('T2') - calc('m')")?;
    let mut sheet = new_sheet(alloc, &def)?;
    for (ones, twos) in first.chunks(size).zip(second.chunks(size)) {
        let deltas = [copy_of(rt, alloc, ones)?, copy_of(rt, alloc, twos)?];
        tell(&mut sheet, &deltas)?;
    }
    let mut text = String::new(alloc);
    push_row(alloc, &mut text, &sheet, 0)?;
    push_row(alloc, &mut text, &sheet, 1)?;
    Ok(text)
}

// Draws records, and checks that their parts of each size make the same rows.
fn agree(rt: &impl Abort, alloc: Global, draws: &mut Draws) -> Result<(), Fail> {
    let first = draws.records(alloc)?;
    let second = draws.records(alloc)?;
    let all = rows_in_parts(rt, alloc, &first, &second, 40)?;
    assert!(rt; !all.is_empty());
    let one = rows_in_parts(rt, alloc, &first, &second, 1)?;
    same(rt, one.as_str(), all.as_str(), "parts of one");
    let few = rows_in_parts(rt, alloc, &first, &second, 7)?;
    same(rt, few.as_str(), all.as_str(), "parts of seven");
    Ok(())
}

#[test]
fn parts_of_any_size_make_the_same_rows(rt: HostRuntime) -> Result<(), Fail> {
    let mut draws = Draws { state: 1 };
    for _ in 0..100 {
        agree(&rt, rt.alloc(), &mut draws)?;
    }
    Ok(())
}
