// Formulas that are read and printed, and the first token because of which a text is refused.
use crate::spelled::{number, rows_tell};
use calc_parser::{ParseNo, parse, print};
use std::alloc::{AllocError, Global};
use std::process::Abort;
use std::test::Fail;

// A formula, and its canonical text.
const PRINTED: &str = "\
( 1 + 2 ) * 3 => (1+2)*3
1--2 => 1--2
0 => 0
007 => 7
1000000000000000000 => 1000000000000000000
1+2+3 => 1+2+3
1-2-3 => 1-2-3
1-(2-3) => 1-(2-3)
1+(2+3) => 1+(2+3)
2*3/4%5 => 2*3/4%5
2*(3/4) => 2*(3/4)
1+2*3 => 1+2*3
(1+2)*3 => (1+2)*3
-1 => -1
--1 => --1
- - 1 => --1
-(1) => -1
-(1+2) => -(1+2)
-(2*3) => -(2*3)
-2*3 => -2*3
2*-3 => 2*-3
1+-2 => 1+-2
1<2 => 1<2
1<=2 => 1<=2
1>=2 => 1>=2
1<>2 => 1<>2
1>2 => 1>2
1=2 => 1=2
(1<2)<3 => (1<2)<3
1<(2<3) => 1<(2<3)
1+2<3*4 => 1+2<3*4
(1<2)+3 => (1<2)+3
1+(2<3) => 1+(2<3)
-(1<2) => -(1<2)
abs(1) => abs(1)
abs((1)) => abs(1)
min(1,2) => min(1,2)
max(1,2+3) => max(1,2+3)
if(1,2,3) => if(1,2,3)
if(1<2,-3,(4)) => if(1<2,-3,4)
avg('T1') => avg('T1')
total('a') => total('a')
low('x-1') => low('x-1')
high('x_1') => high('x_1')
count('x.1') => count('x.1')
first('A') => first('A')
last('z') => last('z')
calc('m') => calc('m')
avg ( 'T1' ) * 2 => avg('T1')*2
calc('m')-avg('m') => calc('m')-avg('m')
((1)) => 1
(((2)))*1 => 2*1
1+2-3+4 => 1+2-3+4
1*2+3*4-5/6 => 1*2+3*4-5/6
if(1=1,if(2,3,4),min(5,max(6,7))) => if(1=1,if(2,3,4),min(5,max(6,7)))
min(1<2,3) => min(1<2,3)
-abs(-1) => -abs(-1)
1-(-2) => 1--2
2%(3%4) => 2%(3%4)
(2*3)*4 => 2*3*4
1- -1 => 1--1
if ( 1 , 2 , 3 ) => if(1,2,3)
--------------------------------1 => --------------------------------1
((((((((((((((((----------------1)))))))))))))))) => ----------------1";

// A text that is no formula, and the place and the kind of the token because of which it is refused.
const REFUSED: &str = "\
avg('T1' => 8 End
1 < 2 < 3 => 6 Token
min(1,) => 6 Token
 => 0 End
  => 1 End
1 2 => 2 Token
1+ => 2 End
+1 => 0 Token
*1 => 0 Token
1**2 => 2 Token
1+*2 => 2 Token
1) => 1 Token
(1 => 2 End
() => 1 Token
1< => 2 End
1<=>2 => 3 Token
1< =2 => 3 Token
1<2=3 => 3 Token
1<2<>3 => 3 Token
1=2>=3 => 3 Token
1==2 => 2 Token
1!2 => 1 Char
1;2 => 1 Char
$ => 0 Char
1&2 => 1 Char
A => 0 Char
é => 0 Char
avg => 3 End
avg( => 4 End
avg(T1) => 4 Char
avg(t) => 4 Word
avg('T1')' => 9 Name
avg('T1',1) => 8 Token
avg('T 1') => 4 Name
avg('') => 4 Name
avg('T1 => 4 Name
' => 0 Name
'T1' => 0 Token
calc(1) => 5 Token
calc('m' => 8 End
abs(1,2) => 5 Token
abs() => 4 Token
min(1) => 5 Token
min(1,2,3) => 7 Token
min 1 => 4 Token
if(1,2) => 6 Token
if(1,2,3,4) => 8 Token
if(1,2, => 7 End
foo(1) => 0 Word
avg1('T1') => 3 Token
avgs('T1') => 0 Word
iff(1,2,3) => 0 Word
min(1,2 => 7 End
1000000000000000001 => 0 Number
99999999999999999999999999 => 0 Number
1 1000000000000000001 => 2 Number
1 foo => 2 Word
1 'x => 2 Name
1 $ => 2 Char
(1+2 => 4 End
1+2) => 3 Token
- => 1 End
-- => 2 End
1- => 2 End
1-) => 2 Token
((((((((((((((((((((((((((((((((abs 1 => 36 Token
((((((((((((((((((((((((((((((((1( => 33 Token
((((((((((((((((((((((((((((((((+ => 32 Token
(((((((((((((((((((((((((((((((() => 32 Token
(((((((((((((((((((((((((((((((($ => 32 Char
2>1>= => 3 Token
if(,1,2) => 3 Token
min(1 2) => 6 Token
(1<2)<3<4 => 7 Token";

// How often a text occurs, the text, another after it, and a third that occurs as often. Then the length of what is
// printed, or the answer for a refused text. The numbers are those of the longest text, of 1,024 bytes, and of the
// deepest nesting, 32.
const NESTED: &str = "\
33|(|1|) => 32 Deep
33|-|1| => 32 Deep
33|abs(|1|) => 131 Deep
32|(|-1|) => 32 Deep
32|(|abs(1)|) => 35 Deep
32|(|avg('T')|) => 35 Deep
32|(|abs 1|) => 36 Token
32|(|1(|) => 33 Token
32|(|+| => 32 Token
32|(||) => 32 Token
33|(|| => 32 Deep
32|(|$| => 32 Char
512|+1|| => 0 Token
32|(|1|) => prints 1
32|-|1| => prints 33
32|abs(|1|) => prints 161
31|(|-1|) => prints 2
499|1+|10| => prints 1000
511|1+|1 | => prints 1023
1023| |1| => prints 1
512|1+|1| => 1025 Long
1024| |1| => 1025 Long
1024| || => 1024 End
400|9|| => 0 Number
64|n|| => 0 Word";

// The answer for a text that is no formula.
fn told(alloc: Global, no: ParseNo) -> Result<String, Fail> {
    Ok(match no {
        ParseNo::Syntax { at, kind } => format!(in alloc; "{at} {kind:?}")?,
        ParseNo::Deep { at } => format!(in alloc; "{at} Deep")?,
        ParseNo::Long { len } => format!(in alloc; "{len} Long")?,
        ParseNo::WantOfMemory => String::from_str(alloc, "memory")?,
    })
}

// The canonical text of a formula.
fn printed(alloc: Global, given: &str) -> Result<String, Fail> {
    let e = parse(alloc, given)?;
    Ok(print(alloc, &e)?)
}

#[test]
fn formulas_are_read_and_printed(rt: HostRuntime) -> Result<(), Fail> {
    rows_tell(&rt, PRINTED, " => ", |given| printed(rt.alloc(), given))
}

// Why a text is no formula.
fn refused(alloc: Global, given: &str) -> Result<String, Fail> {
    match parse(alloc, given) {
        Ok(_) => Err(Fail::new("a formula")),
        Err(no) => told(alloc, no),
    }
}

#[test]
fn the_first_token_that_decides_is_told(rt: HostRuntime) -> Result<(), Fail> {
    rows_tell(&rt, REFUSED, " => ", |given| refused(rt.alloc(), given))
}

// Appends a text so many times.
fn push_times(text: &mut String, times: u64, piece: &str) -> Result<(), AllocError> {
    for _ in 0..times {
        text.push_str(piece)?;
    }
    Ok(())
}

// A text so many times, another after it, and a third as many times.
fn nested(rt: &impl Abort, alloc: Global, given: &str) -> Result<String, AllocError> {
    let (times, given) = given.split_once('|').expect(rt, "times");
    let (open, given) = given.split_once('|').expect(rt, "open");
    let (inner, close) = given.split_once('|').expect(rt, "inner");
    let times = number(rt, times);
    let mut text = String::new(alloc);
    push_times(&mut text, times, open)?;
    text.push_str(inner)?;
    push_times(&mut text, times, close)?;
    Ok(text)
}

// How long a formula is when it is printed, or why a text is no formula.
fn length_told(alloc: Global, text: &str) -> Result<String, Fail> {
    match parse(alloc, text) {
        Ok(e) => Ok(format!(in alloc; "prints {}", print(alloc, &e)?.len())?),
        Err(no) => told(alloc, no),
    }
}

#[test]
fn length_and_nesting_have_limits(rt: HostRuntime) -> Result<(), Fail> {
    rows_tell(&rt, NESTED, " => ", |given| {
        length_told(rt.alloc(), nested(&rt, rt.alloc(), given)?.as_str())
    })
}
