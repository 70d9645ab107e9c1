// The fields of a record, by their number.
ghost use Rattle.std.specs.Prelude.{◌≡◌, ◌<◌, Some, length};
ghost use Rattle.csv.specs.Records.{fields_of, field_at};
ghost use Rattle.value_rows.specs.Form.{AreFields};

use csv::ByteRecord;

// The fields of a record that has two, three or four. `Other` is any other number.
#[derive(Clone, Copy)]
pub(crate) enum Fields<'r> {
    Two(&'r [u8], &'r [u8]),
    Three(&'r [u8], &'r [u8], &'r [u8]),
    Four(&'r [u8], &'r [u8], &'r [u8], &'r [u8]),
    Other,
}

// The fields of a record.
#[tactic(auto, using(crate::proofs::FieldList::two_fields, crate::proofs::FieldList::three_fields, crate::proofs::FieldList::four_fields))]
pub(crate) fn fields_in(row: &ByteRecord) -> Fields<'_>
    ensures { AreFields result (fields_of row.now) }
{
    match row.len() {
        2 => Fields::Two(field(row, 0), field(row, 1)),
        3 => Fields::Three(field(row, 0), field(row, 1), field(row, 2)),
        4 => Fields::Four(field(row, 0), field(row, 1), field(row, 2), field(row, 3)),
        _ => Fields::Other,
    }
}

// The field at a place, counted from 0.
#[tactic(auto, using(crate::proofs::FieldList::field_there))]
fn field(row: &ByteRecord, i: usize) -> &[u8]
    requires { i < length (fields_of row.now) }
    ensures { Some result.now ≡ field_at (fields_of row.now) i }
{
    match row.get(i) {
        Some(field) => field,
        None => unreachable!(),
    }
}
