// Rows of files, read or refused.
use crate::spelled::{number, rows_tell, text};
use std::alloc::Global;
use std::fmt::Write;
use std::process::Abort;
use std::test::Fail;
use trend_num::name_from;
use value_rows::{GroupNames, Name, RowNo, query_rows, raw_rows};

// How many rows there may be, and a text over the tags T1, a.b and T1 once more. In the text a bar is a line feed, a
// caret a carriage return, a number sign a byte order mark, and a tilde two plain rows. After `=>` come the place of
// the tag, the time and the value of each row. For a refused text it is the first bad row and its reason, or the number
// of the first row over the limit.
const RAW: &str = "\
3 T1,0,5 => 0,0,5
3  =>
3 |^| =>
3 T1,0,5| => 0,0,5
3 #T1,0,5| => 0,0,5
3 \"T1\",\"0\",\"5\"| => 0,0,5
3 ||T1,0,5||^^T1,1,-0^^ => 0,0,5 0,1,0
3 T1,0,1000000000000000^|a.b,253402300799999,-1000000000000000| => \
0,0,1000000000000000 1,253402300799999,-1000000000000000
3 T1,00000000000000000007,-00000000000000000008| => 0,7,-8
3 T1,3,1|a.b,1,2|T1,2,3| => 0,3,1 1,1,2 0,2,3
3 T1,5 => row 1 Fields
3 T1,0,5,| => row 1 Fields
3  | => row 1 Fields
3 T1,0,5|||T1,5| => row 2 Fields
3 T1,0,5|,,,,,,,|T1,0,6| => row 2 Fields
3 T1,0,5|\"a.b\",1,6|\"T1,|\"\"\",,,,,\"7 => row 3 Fields
3 #T1,0,5,,,\"|T1,0,6| => row 1 Fields
3 \"T1,,,,,\",0,5|T1,0,6| => row 1 Name
1 T1,0,5|,,,,,,,| => rows 2
3 T2,0,5 => row 1 Name
3 t1,0,5 => row 1 Name
3  T1,0,5 => row 1 Name
3 T2,x,5 => row 1 Name
3 T1,x,5 => row 1 Number
3 T1,0,x => row 1 Number
3 T1,,5 => row 1 Number
3 T1, 0,5 => row 1 Number
3 T1,0,+5 => row 1 Number
3 T1,-1,x => row 1 Number
3 T1,0,\"5| => row 1 Number
3 T1,\"1|2\",3| => row 1 Number
3 T1,000000000000000000001,5 => row 1 Number
3 T1,-1,5 => row 1 Range
3 T1,253402300800000,5 => row 1 Range
3 T1,0,1000000000000001 => row 1 Range
3 T1,0,-1000000000000001 => row 1 Range
3 T1,0,5|T1,0,5|T1,9,x|T1,5 => row 3 Number
2 T1,0,5|T1,0,5| => 0,0,5 0,0,5
1 T1,0,5|T1,0,5| => rows 2
0 T1,0,5|T1,0,5| => rows 1
2 T1,0,5|x| => row 2 Fields
1 T1,0,5|x| => rows 2
1 x|x| => row 1 Fields
18446744073709551615 T1,0,5| => 0,0,5
2 ~ => 1,1700000000986,5005 0,1700000001518,-4998
5 #T1,0,5|~ => 0,0,5 1,1700000000986,5005 0,1700000001518,-4998
5 T1,0,5^|a.b,1,-7^|~ => 0,0,5 1,1,-7 1,1700000000986,5005 0,1700000001518,-4998
5 T1,0,5|^||a.b,1,6|~ => 0,0,5 1,1,6 1,1700000000986,5005 0,1700000001518,-4998
5 T1,0,5^a.b,1,6|~ => 0,0,5 1,1,6 1,1700000000986,5005 0,1700000001518,-4998
5 T1,0,5|\"a.b\",\"1\",6|T1,2,7|~ => 0,0,5 1,1,6 0,2,7 1,1700000000986,5005 0,1700000001518,-4998
9 T1,0,5|T1,1,x|~ => row 2 Number
9 T1,0,5|T2,1,6|~ => row 2 Name
9 T1,0,5|#T1,1,6|~ => row 2 Name
9 T1,0,5|#\"T1\",1,6|~ => row 2 Name
9 T1,0,5|a.b,1,6|T1,1,1000000000000001|~ => row 3 Range
9 T1,0,5|a.b,1,6|||T1,1|~ => row 3 Fields
3 T1,0,5|a.b,1,6|~ => rows 4
0 T1,0,5|a.b,1,6|~ => rows 1";

// A text over the tags T1 and a.b, the group g of m and n, and the group h of m. It may have three queries at most.
// After `=>` come its queries, or the first bad row and its reason, or the number of the first row over the limit.
const QUERIES: &str = "\
at,T1,0| => Tag { tag: 0, query: At { t: 0 } }
at,a.b,253402300799999^| => Tag { tag: 1, query: At { t: 253402300799999 } }
points,T1,5,5 => Tag { tag: 0, query: Points { from: 5, to: 5 } }
area,T1,0,1 => Tag { tag: 0, query: Window { measure: Area, from: 0, to: 1 } }
avg,T1,0,1 => Tag { tag: 0, query: Window { measure: Avg, from: 0, to: 1 } }
total,T1,0,1 => Tag { tag: 0, query: Window { measure: Total, from: 0, to: 1 } }
low,T1,0,1 => Tag { tag: 0, query: Window { measure: Low, from: 0, to: 1 } }
high,T1,0,1 => Tag { tag: 0, query: Window { measure: High, from: 0, to: 1 } }
count,T1,0,1 => Tag { tag: 0, query: Window { measure: Count, from: 0, to: 1 } }
first,T1,0,1 => Tag { tag: 0, query: Window { measure: First, from: 0, to: 1 } }
last,a.b,-0,1 => Tag { tag: 1, query: Window { measure: Last, from: 0, to: 1 } }
snap,a.b => Snap { tag: 1 }
row,g,n,0 => Row { group: 0, calc: 1, k: 0 }
\"row\",h,m,1000000000000 => Row { group: 1, calc: 0, k: 1000000000000 }
\"at\",\"T1\",\"0\"|snap,T1|row,g,m,7| => \
Tag { tag: 0, query: At { t: 0 } } Snap { tag: 0 } Row { group: 0, calc: 0, k: 7 }
at => row 1 Fields
x => row 1 Fields
at,T1,0,0,0 => row 1 Fields
x,T1,0,5,6 => row 1 Fields
at,T1 => row 1 Fields
at,T1,0|at,T1,0,,,,, => row 2 Fields
snap,\"T1,,,,,\" => row 1 Name
at,T1,0,0 => row 1 Fields
points,T1,0 => row 1 Fields
snap => row 1 Fields
snap,T1,0 => row 1 Fields
row,g,m => row 1 Fields
avg,T1,5 => row 1 Fields
mean,T1,0,5 => row 1 Verb
AT,T1,0 => row 1 Verb
x,T9 => row 1 Verb
,T1,0 => row 1 Verb
at,T9,0 => row 1 Name
points,T9,x,5 => row 1 Name
avg,T9,5,5 => row 1 Name
snap,T9 => row 1 Name
row,x,m,0 => row 1 Name
row,h,n,0 => row 1 Name
at,T1,x => row 1 Number
points,T1,5, => row 1 Number
avg,T1,-1,x => row 1 Number
avg,T1,x,5 => row 1 Number
row,g,m,x => row 1 Number
at,T1,-1 => row 1 Range
at,T1,253402300800000 => row 1 Range
points,T1,6,5 => row 1 Range
avg,T1,5,5 => row 1 Range
avg,T1,0,253402300800000 => row 1 Range
row,g,m,1000000000001 => row 1 Range
row,g,m,-1 => row 1 Range
at,T1,0||at,T9,0| => row 2 Name
snap,T1|snap,T1|snap,T1|x => rows 4";

// The name that a word spells.
fn named(rt: &impl Abort, word: &str) -> Name {
    name_from(word.as_bytes()).expect(rt, "a name")
}

// The answer for a file that is refused.
fn refusal(alloc: Global, no: RowNo) -> Result<String, Fail> {
    Ok(match no {
        RowNo::BadRow { row, reason } => format!(in alloc; " row {row} {reason:?}")?,
        RowNo::TooMany { rows } => format!(in alloc; " rows {rows}")?,
        RowNo::WantOfMemory => String::from_str(alloc, " memory")?,
    })
}

// The answer for the raw rows of a text.
fn raw_told(rt: &impl Abort, alloc: Global, text: &str, most: u64) -> Result<String, Fail> {
    let (first, second) = (named(rt, "T1"), named(rt, "a.b"));
    let tags = [first, second, first];
    let mut told = String::new(alloc);
    match raw_rows(alloc, text.as_bytes(), &tags, most) {
        Ok(rows) => {
            for row in &rows {
                write!(told, " {},{},{}", row.tag, row.point.t, row.point.v)?;
            }
            Ok(told)
        }
        Err(no) => refusal(alloc, no),
    }
}

#[test]
fn raw_rows_are_read(rt: HostRuntime) -> Result<(), Fail> {
    rows_tell(&rt, RAW, " =>", |given| {
        let (most, field) = given.split_once(' ').ok_or("most")?;
        let text = text(rt.alloc(), field)?;
        raw_told(&rt, rt.alloc(), text.as_str(), number(&rt, most))
    })
}

// The answer for the queries of a text.
fn queries_told(rt: &impl Abort, alloc: Global, text: &str) -> Result<String, Fail> {
    let tags = [named(rt, "T1"), named(rt, "a.b")];
    let groups = [
        GroupNames {
            name: named(rt, "g"),
            calcs: vec![in alloc; named(rt, "m"), named(rt, "n")]?,
        },
        GroupNames {
            name: named(rt, "h"),
            calcs: vec![in alloc; named(rt, "m")]?,
        },
    ];
    let mut told = String::new(alloc);
    match query_rows(alloc, text.as_bytes(), &tags, &groups, 3) {
        Ok(rows) => {
            for row in &rows {
                write!(told, " {row:?}")?;
            }
            Ok(told)
        }
        Err(no) => refusal(alloc, no),
    }
}

#[test]
fn queries_are_read(rt: HostRuntime) -> Result<(), Fail> {
    rows_tell(&rt, QUERIES, " =>", |given| {
        queries_told(&rt, rt.alloc(), text(rt.alloc(), given)?.as_str())
    })
}
