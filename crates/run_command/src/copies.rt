// Before a refusal is reported: the records that groups have of their inputs are compared with those of the tags.
ghost use Rattle.std.specs.Prelude.{◌≡◌, ◌<◌, ◌≤◌, All, IfErr, OnOk, [], length, slice_index_or};
ghost use Rattle.calc_refresh.specs.{lists_of};
ghost use Rattle.plant_files.specs.PlanRows.{IsGoodBase};
ghost use Rattle.run_command.specs.Copies.{AreCopied, IsChecked, IsGroupUncopied, IsInputUncopied};
ghost use Rattle.run_command.specs.Units.{AtEachGroup};

use group_book::GroupHistory;
use plant_status::{Place, Status};
use session_audit::compare_records;
use session_report::Session;
use tag_base::{Base, GroupDef};
use trend_num::Rec;

// Returns what a session reports of a refusal. If the refusal is no mismatch and not want of memory, each group must have
// the first records of its inputs' tags. Otherwise the session reports the first group that has others.
pub(crate) fn checked(why: Status, base: &Base, session: &Session) -> Status
    requires good { IsGoodBase base.now }
    requires tags { length session.now.tags.items ≡ length base.now.tags.items }
    requires groups { length session.now.groups.items ≡ length base.now.groups.items }
    ensures { IsChecked base.now session.now why result }
{
    match why {
        Status::Mismatch { .. } | Status::WantOfMemory => why,
        _ => match compare_copies(base, session) {
            Ok(()) => why,
            Err(apart) => apart,
        },
    }
}

// Checks that each group has the first records of its inputs' tags. It stops at the first group that has not.
fn compare_copies(base: &Base, session: &Session) -> Result<(), Status>
    requires good { IsGoodBase base.now }
    requires tags { length session.now.tags.items ≡ length base.now.tags.items }
    requires groups { length session.now.groups.items ≡ length base.now.groups.items }
    ensures copied { OnOk result (AtEachGroup base.now session.now (λ i d g. AreCopied session.now d g)) }
    ensures differs { IfErr result (IsGroupUncopied base.now session.now) }
{
    for group in 0..session.groups.len() {
        let (def, its) = (&base.groups[group], &session.groups[group]);
        if let Err(why) = compare_inputs(session, group as u32, def, its) {
            return Err(why);
        }
    }
    Ok(())
}

// Checks that a group has the first records of its inputs' tags. It stops at the first input of which it has others.
fn compare_inputs(
    session: &Session,
    group: u32,
    def: &GroupDef,
    its: &GroupHistory,
) -> Result<(), Status>
    requires known { All (λ tag. tag < length session.now.tags.items) def.now.inputs.items }
    requires few { length def.now.inputs.items ≤ 64 }
    ensures copied { OnOk result (AreCopied session.now def.now its.now) }
    ensures differs { IfErr result (IsInputUncopied session.now group def.now its.now) }
{
    for input in 0..def.inputs.len() {
        let tag = &session.tags[def.inputs[input] as usize];
        if let Err(differs) = compare_records(&tag.recs, copy_at(&its.copies, input)) {
            return Err(Status::Mismatch {
                place: Place::Version {
                    group,
                    input: input as u32,
                },
                kept: differs.kept,
                told: differs.told,
            });
        }
    }
    Ok(())
}

// Returns the copy at a place, or no records.
fn copy_at(copies: &[Vec<Rec>], place: usize) -> &[Rec]
    ensures { result.now ≡ slice_index_or (lists_of copies.now) place [] }
{
    match copies.get(place) {
        Some(copy) => copy,
        None => &[],
    }
}
