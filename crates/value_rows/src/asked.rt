// The rows of a reader.
ghost use Rattle.std.specs.Prelude.{◌≡◌, ◌<◌, ◌^◌, ◌≤◌, All, length, vec_len, Ok, IfOk, IfErr, IfSome};
ghost use Rattle.trend_num.specs.{last_time};
ghost use Rattle.value_rows.specs.Asked.{IsQuery, query_row, query_rows, asked_group_place, calc_names_at, snap_row, at_row, span_of, points_row, window_row, calc_row, one_field, two_fields, three_fields};
ghost use Rattle.value_rows.specs.Raw.{first_place_of};
ghost use Rattle.value_rows.specs.Reading.{AreRefusedFor};

use crate::fields::{Fields, fields_in};
use crate::numbers::{natural_upto, time_of};
use crate::places::Places;
use crate::reading::{Form, rows_of_text};
use crate::verb::{Verb, verb_of};
use csv::ByteRecord;
use point_text::RowNo;
use std::alloc::Global;
use trend_num::{Measure, Name, Reason, TagQuery, numeral};

// The number of the last window that may be asked for.
const LAST_WINDOW: u64 = 1_000_000_000_000;

/// What a reader asks. Tags, groups and calculations are given by their places, counted from 0.
#[derive(Clone, Copy, Debug, PartialEq, Eq)]
pub enum Query {
    /// A query of a tag's archive.
    Tag { tag: u32, query: TagQuery },
    /// The snapshot of a tag.
    Snap { tag: u32 },
    /// The value of a calculation of a group in its window `k`. Windows are numbered from 0.
    Row { group: u32, calc: u32, k: u64 },
}

/// The name of a group, and the names of its calculations in order.
#[derive(Debug, Drop)]
pub struct GroupNames {
    pub name: Name,
    pub calcs: Vec<Name>,
}

/// Reads the queries of a text of at most `most` records. A record is one of these:
/// - `at,TAG,T`
/// - `points,TAG,FROM,TO`, where FROM is at most TO
/// - `MEASURE,TAG,FROM,TO`, where FROM is below TO
/// - `snap,TAG`
/// - `row,GROUP,CALC,K`, where K is the number of a window, from 0 to 10^12
///
/// Times are in milliseconds from 1970. A name stands for the first tag, group or calculation that has it. `BadRow`
/// comes with the first bad record, counted from 1. `TooMany` comes if there are more records and none of the first
/// `most` is bad. `WantOfMemory` comes if there is not enough memory.
pub fn query_rows(
    alloc: Global,
    bytes: &[u8],
    tags: &[Name],
    groups: &[GroupNames],
    most: u64,
) -> Result<Vec<Query>, RowNo>
    requires few_tags { length tags.now < 2 ^ 32 }
    requires few_groups { length groups.now < 2 ^ 32 }
    requires few_calcs { All (λ g. vec_len g.calcs < 2 ^ 32) groups.now }
    ensures rows { IfOk result (λ rows. query_rows tags.now groups.now most bytes.now ≡ Ok rows.items) }
    ensures in_range { IfOk result (λ rows. All (IsQuery tags.now groups.now) rows.items) }
    ensures refused { IfErr result (AreRefusedFor (query_rows tags.now groups.now most bytes.now)) }
{
    match Places::new(alloc, tags) {
        Ok(tags) => rows_of_text(alloc, &QueryForm { tags, groups }, bytes, most),
        Err(_) => Err(RowNo::WantOfMemory),
    }
}

// Reads records that begin with a verb.
#[derive(Drop)]
struct QueryForm<'n> {
    tags: Places<'n>,
    groups: &'n [GroupNames],
    ghost few_groups: { length groups.now < 2 ^ 32 },
    ghost few_calcs: { All (λ g. vec_len g.calcs < 2 ^ 32) groups.now },
}

impl<'n> Form for QueryForm<'n> {
    ghost use Rattle.std.specs.Prelude.{refl};

    type Row = Query;

    ghost row_of = { λ form. query_row form.tags form.groups.now };

    ghost is_row = { λ form. IsQuery form.tags form.groups.now };

    fn read(&self, row: &ByteRecord) -> Result<Query, Reason> {
        match fields_in(row) {
            Fields::Two(verb, a) => self.one_field(verb_of(verb), a),
            Fields::Three(verb, a, b) => self.two_fields(verb_of(verb), a, b),
            Fields::Four(verb, a, b, c) => self.three_fields(verb_of(verb), a, b, c),
            Fields::Other => Err(Reason::Fields),
        }
    }

    ghost refuses_wide = { λ form a b c d e more. refl };
}

impl<'n> QueryForm<'n> {
    // The query of a verb and one more field.
    fn one_field(&self, verb: Option<Verb>, a: &[u8]) -> Result<Query, Reason>
        ensures query { result ≡ one_field self.now.tags verb a.now }
        ensures is_query { IfOk result (IsQuery self.now.tags self.now.groups.now) }
    {
        match verb {
            Some(Verb::Snap) => self.snap(a),
            Some(_) => Err(Reason::Fields),
            None => Err(Reason::Verb),
        }
    }

    // The query of a verb and two more fields.
    fn two_fields(&self, verb: Option<Verb>, a: &[u8], b: &[u8]) -> Result<Query, Reason>
        ensures query { result ≡ two_fields self.now.tags verb a.now b.now }
        ensures is_query { IfOk result (IsQuery self.now.tags self.now.groups.now) }
    {
        match verb {
            Some(Verb::At) => self.at(a, b),
            Some(_) => Err(Reason::Fields),
            None => Err(Reason::Verb),
        }
    }

    // The query of a verb and three more fields.
    fn three_fields(
        &self,
        verb: Option<Verb>,
        a: &[u8],
        b: &[u8],
        c: &[u8],
    ) -> Result<Query, Reason>
        ensures query { result ≡ three_fields self.now.tags self.now.groups.now verb a.now b.now c.now }
        ensures is_query { IfOk result (IsQuery self.now.tags self.now.groups.now) }
    {
        match verb {
            Some(Verb::Points) => self.points(a, b, c),
            Some(Verb::Window(measure)) => self.window(measure, a, b, c),
            Some(Verb::Row) => self.calc_row(a, b, c),
            Some(_) => Err(Reason::Fields),
            None => Err(Reason::Verb),
        }
    }

    // `snap,TAG`.
    #[tactic(auto, unfolding(crate::specs::Asked::snap_row))]
    fn snap(&self, tag: &[u8]) -> Result<Query, Reason>
        ensures query { result ≡ snap_row self.now.tags tag.now }
        ensures is_query { IfOk result (IsQuery self.now.tags self.now.groups.now) }
    {
        let tag = self.tags.place(tag).ok_or(Reason::Name)?;
        Ok(Query::Snap { tag })
    }

    // `at,TAG,T`.
    #[tactic(auto, unfolding(crate::specs::Asked::at_row))]
    fn at(&self, tag: &[u8], t: &[u8]) -> Result<Query, Reason>
        ensures query { result ≡ at_row self.now.tags tag.now t.now }
        ensures is_query { IfOk result (IsQuery self.now.tags self.now.groups.now) }
    {
        let tag = self.tags.place(tag).ok_or(Reason::Name)?;
        let t = numeral(t).ok_or(Reason::Number)?;
        let t = time_of(t).ok_or(Reason::Range)?;
        Ok(Query::Tag {
            tag,
            query: TagQuery::At { t },
        })
    }

    // `points,TAG,FROM,TO`.
    fn points(&self, tag: &[u8], from: &[u8], to: &[u8]) -> Result<Query, Reason>
        ensures query { result ≡ points_row self.now.tags tag.now from.now to.now }
        ensures is_query { IfOk result (IsQuery self.now.tags self.now.groups.now) }
    {
        let (tag, from, to) = self.span(tag, from, to)?;
        if from <= to {
            Ok(Query::Tag {
                tag,
                query: TagQuery::Points { from, to },
            })
        } else {
            Err(Reason::Range)
        }
    }

    // `MEASURE,TAG,FROM,TO`.
    fn window(&self, measure: Measure, tag: &[u8], from: &[u8], to: &[u8]) -> Result<Query, Reason>
        ensures query { result ≡ window_row self.now.tags measure tag.now from.now to.now }
        ensures is_query { IfOk result (IsQuery self.now.tags self.now.groups.now) }
    {
        let (tag, from, to) = self.span(tag, from, to)?;
        if from < to {
            Ok(Query::Tag {
                tag,
                query: TagQuery::Window { measure, from, to },
            })
        } else {
            Err(Reason::Range)
        }
    }

    // `TAG,FROM,TO`: a tag and two times.
    #[tactic(auto, unfolding(crate::specs::Asked::span_of))]
    fn span(&self, tag: &[u8], from: &[u8], to: &[u8]) -> Result<(u32, u64, u64), Reason>
        ensures span { result ≡ span_of self.now.tags tag.now from.now to.now }
        ensures tag { IfOk result (λ s. s.0 < length self.now.tags) }
        ensures times { IfOk result (λ s. (s.1 ≤ last_time) × (s.2 ≤ last_time)) }
    {
        let tag = self.tags.place(tag).ok_or(Reason::Name)?;
        let from = numeral(from).ok_or(Reason::Number)?;
        let to = numeral(to).ok_or(Reason::Number)?;
        let from = time_of(from).ok_or(Reason::Range)?;
        let to = time_of(to).ok_or(Reason::Range)?;
        Ok((tag, from, to))
    }

    // `row,GROUP,CALC,K`.
    #[tactic(auto, unfolding(crate::specs::Asked::calc_row))]
    fn calc_row(&self, group: &[u8], calc: &[u8], k: &[u8]) -> Result<Query, Reason>
        ensures query { result ≡ calc_row self.now.groups.now group.now calc.now k.now }
        ensures is_query { IfOk result (IsQuery self.now.tags self.now.groups.now) }
    {
        let group = self.group_place(group).ok_or(Reason::Name)?;
        let calc = place_among(self.calcs_at(group), calc).ok_or(Reason::Name)?;
        let k = numeral(k).ok_or(Reason::Number)?;
        let k = natural_upto(LAST_WINDOW, k).ok_or(Reason::Range)?;
        Ok(Query::Row {
            group: group as u32,
            calc: calc as u32,
            k,
        })
    }

    // The place of the first group with this name.
    fn group_place(&self, name: &[u8]) -> Option<usize>
        ensures place { result ≡ asked_group_place self.now.groups.now name.now }
        ensures within { IfSome result (λ i. i < length self.now.groups.now) }
    {
        self.groups.iter().position(|g| name == g.name.bytes())
    }

    // The names of the calculations of the group at a place.
    fn calcs_at(&self, group: usize) -> &[Name]
        requires { group < length self.now.groups.now }
        ensures calcs { result.now ≡ calc_names_at self.now.groups.now group }
        ensures few { length result.now < 2 ^ 32 }
    {
        self.groups[group].calcs.as_slice()
    }
}

// The place of the first of the names that is this one.
fn place_among(names: &[Name], name: &[u8]) -> Option<usize>
    ensures place { result ≡ first_place_of names.now name.now }
    ensures within { IfSome result (λ i. i < length names.now) }
{
    names.iter().position(|n| name == n.bytes())
}
