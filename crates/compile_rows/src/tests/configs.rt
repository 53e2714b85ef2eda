//! Texts of configurations with some lines changed: what is legal, the first broken rule, or the first line that may not
//! stand.

use atom_traits::Raw;
use banzai_config::Config;
use config_text::{ReadFault, read_parts};
use dom_words::read_count;
use std::alloc::Global;
use std::test::Fail;

// Legal for `raw-small`, with 20 lines. Container 5 is there, and nothing writes it; no atom holds array 2.
const CONFIG: &str = "banzai,1
target,raw-small
field,x
field,sum
array,total,1,0
array,b,4,7
array,c,1,0
containers,6
stage,1
bin,c2,add,c0,c1
atom,1
slot,0,#0,-,c3,add,c0
stage,2
atom,1
slot,1,c2,c4,-,keep
stage,3
stage,4
out,c0
out,c3
end
";

// Changes, each as a line's number and what stands in its place: `<LF>` for a line feed, and nothing for no line. First each
// rule by itself, in their order; then pairs of rules, most at one atom; then lines that may not stand.
pub(crate) const CHANGES: &str = " => legal
4=field,x => Refused { kind: BadNumber, stage: 0, atom: 0 }
6=array,total,4,7 => Refused { kind: BadNumber, stage: 0, atom: 0 }
6=array,x,4,7 => legal
7=array,c,0,0 => Refused { kind: BadNumber, stage: 0, atom: 0 }
7=array,c,1048571,0 => legal
7=array,c,1048572,0 => Refused { kind: BadNumber, stage: 0, atom: 0 }
8=containers,1 => Refused { kind: BadNumber, stage: 0, atom: 0 }
8=containers,2048 => legal
8=containers,2049 => Refused { kind: BadNumber, stage: 0, atom: 0 }
17= => Refused { kind: Depth, stage: 0, atom: 0 }
17=stage,4<LF>stage,5 => Refused { kind: Depth, stage: 0, atom: 0 }
16=atom,1<LF>slot,2,#0,-,-,keep<LF>stage,3 => Refused { kind: Width, stage: 2, atom: 2 }
8=containers,9 17=stage,4<LF>un,c5,neg,c0<LF>un,c6,neg,c0<LF>un,c7,neg,c0<LF>un,c8,neg,c0 => legal
8=containers,10 17=stage,4<LF>un,c5,neg,c0<LF>un,c6,neg,c0<LF>un,c7,neg,c0<LF>un,c8,neg,c0<LF>un,c9,neg,c0 => Refused { kind: Width, stage: 4, atom: 5 }
10=bin,c2,add,c0,c6 => Refused { kind: BadNumber, stage: 1, atom: 1 }
10=bin,c6,add,c0,c1 => Refused { kind: BadNumber, stage: 1, atom: 1 }
12=slot,3,#0,-,c3,add,c0 => Refused { kind: BadNumber, stage: 1, atom: 2 }
12=slot,0,#0,c6,c3,add,c0 => Refused { kind: BadNumber, stage: 1, atom: 2 }
12=slot,0,#0,-,c3,add,c6 => Refused { kind: BadNumber, stage: 1, atom: 2 }
12=slot,0,#0,-,c3,if,eq,s1,#0,keep,keep => Refused { kind: BadNumber, stage: 1, atom: 2 }
10=bin,c2,mul,c0,c1 => Refused { kind: MulOperator, stage: 1, atom: 1 }
10=bin,c2,div,c0,c1 => Refused { kind: MulOperator, stage: 1, atom: 1 }
10=bin,c2,rem,c0,c1 => Refused { kind: MulOperator, stage: 1, atom: 1 }
10=hash,c2,hash1,10,c0 => legal
10=bin,c2,add,c0,#99 => legal
12=slot,0,#99,-,c3,add,c0 => legal
12=slot,0,#0,-,c3,add,#15 => legal
12=slot,0,#0,-,c3,add,#16 => Refused { kind: WideConstant, stage: 1, atom: 2 }
12=slot,0,#0,-,c3,add,#-16 => legal
12=slot,0,#0,-,c3,add,#-17 => Refused { kind: WideConstant, stage: 1, atom: 2 }
12=slot,0,#0,-,c3,if,eq,s0,#16,keep,keep => Refused { kind: WideConstant, stage: 1, atom: 2 }
12=slot,0,#0,-,c3,sub,c0 => Refused { kind: Pattern, stage: 1, atom: 2 }
12=slot,0,#0,-,c3,if,eq,s0,#0,keep,keep => Refused { kind: Pattern, stage: 1, atom: 2 }
11=atom,2 12=slot,0,#0,-,c3,keep<LF>slot,2,#0,-,-,keep => Refused { kind: Pattern, stage: 1, atom: 2 }
15=slot,0,c2,c4,-,keep => Refused { kind: ArrayTwice, stage: 2, atom: 1 }
12=slot,0,#0,-,c3,add,c2 => Refused { kind: ReadBeforeWrite, stage: 1, atom: 2 }
12=slot,0,c5,-,c3,add,c0 => Refused { kind: ReadBeforeWrite, stage: 1, atom: 2 }
15=slot,1,c2,c3,-,keep => Refused { kind: ContainerTwice, stage: 2, atom: 1 }
15=slot,1,c2,c4,c4,keep => Refused { kind: ContainerTwice, stage: 2, atom: 1 }
15=slot,1,c2,c1,-,keep => Refused { kind: ContainerTwice, stage: 2, atom: 1 }
19=out,c6 => Refused { kind: BadNumber, stage: 5, atom: 2 }
19=out,c5 => Refused { kind: ReadBeforeWrite, stage: 5, atom: 2 }
18=out,c5 19=out,c6 => Refused { kind: ReadBeforeWrite, stage: 5, atom: 1 }
1=banzai,2 => legal
1=banzai,2 15=slot,1,c2,c3,-,keep => legal
1=banzai,2 15=slot,1,c2,c1,-,keep => legal
1=banzai,2 15=slot,1,c2,c2,-,keep => Refused { kind: ContainerTwice, stage: 2, atom: 1 }
1=banzai,2 15=slot,1,c2,c4,c4,keep => Refused { kind: ContainerTwice, stage: 2, atom: 1 }
1=banzai,2 12=slot,0,#0,-,c1,add,c0 => Refused { kind: ContainerTwice, stage: 1, atom: 2 }
1=banzai,2 10=bin,c1,add,c0,c0<LF>bin,c2,add,c0,c1 => Refused { kind: ContainerTwice, stage: 1, atom: 2 }
1=banzai,2 12=slot,0,#0,-,c3,add,c2 => Refused { kind: ReadBeforeWrite, stage: 1, atom: 2 }
4=field,x 17= => Refused { kind: BadNumber, stage: 0, atom: 0 }
15=slot,0,c2,c4,-,keep 17= => Refused { kind: Depth, stage: 0, atom: 0 }
15=slot,0,c2,c4,-,keep 18=out,c6 => Refused { kind: ArrayTwice, stage: 2, atom: 1 }
10=bin,c2,mul,c0,c1 15=slot,0,c2,c4,-,keep => Refused { kind: MulOperator, stage: 1, atom: 1 }
16=atom,1<LF>slot,3,#0,-,-,keep<LF>stage,3 => Refused { kind: Width, stage: 2, atom: 2 }
16=atom,1<LF>slot,2,#0,-,-,put,#16<LF>stage,3 => Refused { kind: Width, stage: 2, atom: 2 }
16=atom,1<LF>slot,2,#0,-,-,sub,c0<LF>stage,3 => Refused { kind: Width, stage: 2, atom: 2 }
16=atom,1<LF>slot,1,#0,-,-,keep<LF>stage,3 => Refused { kind: Width, stage: 2, atom: 2 }
16=atom,1<LF>slot,2,c5,-,-,keep<LF>stage,3 => Refused { kind: Width, stage: 2, atom: 2 }
16=atom,1<LF>slot,2,#0,c3,-,keep<LF>stage,3 => Refused { kind: Width, stage: 2, atom: 2 }
8=containers,10 17=stage,4<LF>un,c5,neg,c0<LF>un,c6,neg,c0<LF>un,c7,neg,c0<LF>un,c8,neg,c0<LF>bin,c9,mul,c0,c0 => Refused { kind: Width, stage: 4, atom: 5 }
10=bin,c2,mul,c0,c6 => Refused { kind: BadNumber, stage: 1, atom: 1 }
15=slot,3,c2,c4,-,put,#16 => Refused { kind: BadNumber, stage: 2, atom: 1 }
15=slot,3,c2,c4,-,sub,c0 => Refused { kind: BadNumber, stage: 2, atom: 1 }
15=slot,0,c6,c4,-,keep => Refused { kind: BadNumber, stage: 2, atom: 1 }
15=slot,3,c5,c4,-,keep => Refused { kind: BadNumber, stage: 2, atom: 1 }
15=slot,3,c2,c3,-,keep => Refused { kind: BadNumber, stage: 2, atom: 1 }
10=bin,c2,mul,c0,c5 => Refused { kind: MulOperator, stage: 1, atom: 1 }
10=bin,c1,mul,c0,c0 => Refused { kind: MulOperator, stage: 1, atom: 1 }
15=slot,1,c2,c4,-,sub,#16 => Refused { kind: WideConstant, stage: 2, atom: 1 }
15=slot,0,c2,c4,-,put,#16 => Refused { kind: WideConstant, stage: 2, atom: 1 }
15=slot,1,c5,c4,-,put,#16 => Refused { kind: WideConstant, stage: 2, atom: 1 }
15=slot,1,c2,c3,-,put,#16 => Refused { kind: WideConstant, stage: 2, atom: 1 }
15=slot,0,c2,c4,-,sub,c0 => Refused { kind: Pattern, stage: 2, atom: 1 }
15=slot,1,c5,c4,-,sub,c0 => Refused { kind: Pattern, stage: 2, atom: 1 }
15=slot,1,c2,c3,-,sub,c0 => Refused { kind: Pattern, stage: 2, atom: 1 }
15=slot,0,c5,c4,-,keep => Refused { kind: ArrayTwice, stage: 2, atom: 1 }
15=slot,0,c2,c3,-,keep => Refused { kind: ArrayTwice, stage: 2, atom: 1 }
15=slot,1,c5,c3,-,keep => Refused { kind: ReadBeforeWrite, stage: 2, atom: 1 }
1=banzai,3 => Line(1)
1=banzai,01 => Line(1)
2=target,RAW => Line(2)
2=target,raw9 => Line(2)
2=target,raw-tiny => UnknownTarget
2=target,- => UnknownTarget
2=target,raw-tiny 20=stop => Line(20)
3=field,while => Line(3)
3=field,1x => Line(3)
3= 4= => Line(3)
5=array,total,01,0 => Line(5)
5=array,total,1 => Line(5)
5=array,total,1,4294967295 => Line(5)
8=containers,4294967296 => Line(8)
8=containers => Line(8)
8= => Line(8)
9=stage,2 => Line(9)
9=stage,01 => Line(9)
13=stage,3 => Line(13)
10=un,c2,neg,c0,c1 => Line(10)
10=un,c2,add,c0 => Line(10)
10=bin,c02,add,c0,c1 => Line(10)
10=bin,c2,plus,c0,c1 => Line(10)
10=bin,c2,add,c0,s0 => Line(10)
10=cond,c2,c0,c1 => Line(10)
10=hash,c2,hash2,10,c0 => Line(10)
10=hash,c2,hash5,10,c0 => Line(10)
10=hash,c2,hash1,2147483647,c0 => legal
10=hash,c2,hash1,2147483648,c0 => Line(10)
11=atom,0 => Line(11)
11=atom,3 => Line(11)
11= => Line(11)
11=atom,2 => Line(13)
12= => Line(12)
12=slot,0,#-0,-,c3,add,c0 => Line(12)
12=slot,0,#+1,-,c3,add,c0 => Line(12)
12=slot,0,#0,-,3,add,c0 => Line(12)
12=slot,0,#0,-,c3,add,#2147483648 => Line(12)
12=slot,0,#0,-,c3,add => Line(12)
12=slot,0,#0,-,c3,if,le,s0,#0,keep,keep => Line(12)
12=slot,0,#0,-,c3,if,eq,s2,#0,keep,keep => Line(12)
12=slot,0,#0,-,c3,if,eq,s0,#0,if,eq,s0,#0,if,eq,s0,#0,keep,keep,keep,keep => Line(12)
13=un,c5,neg,c0<LF>stage,2 => Line(13)
18=out,s0 => Line(18)
19= => Line(19)
19=out,c3<LF>out,c3 => Line(20)
20= => Line(20)
20=END => Line(20)
20=end<LF>end => Line(21)";

// How many proper prefixes of a changed text are refused by the line behind their last whole one, and how many there are.
pub(crate) const PREFIXES: &str = " => 220 of 220
1=banzai,2 15=slot,1,c2,c3,-,keep => 220 of 220";

// The line with a number, or what a change says of it.
fn line_by<'a>(changes: &'a str, number: u32, line: &'a str) -> &'a str {
    for change in changes.split_whitespace() {
        if let Some((at, other)) = change.split_once("=")
            && read_count(at.as_bytes()) == Some(number)
        {
            return other;
        }
    }
    line
}

// Puts a line at the end, if there is one.
fn put_line(alloc: Global, line: &str, text: &mut String) -> Result<(), Fail> {
    if !line.is_empty() {
        let lines = line.replace(alloc, "<LF>", "\n")?;
        text.push_str(lines.as_str())?;
        text.push_str("\n")?;
    }
    Ok(())
}

// The text with these changes.
fn changed(alloc: Global, changes: &str) -> Result<String, Fail> {
    let mut text = String::new(alloc);
    let mut number = 0u32;
    for line in CONFIG.lines() {
        number = number.saturating_add(1);
        put_line(alloc, line_by(changes, number, line), &mut text)?;
    }
    Ok(text)
}

// What a text is for `raw-small`.
fn judged(alloc: Global, text: &[u8]) -> Result<String, Fail> {
    if text.len() > 65_536 {
        return Ok(Err("the text is too long")?);
    }
    let shown = match read_parts(alloc, text) {
        Ok((_, parts)) => match Config::<Raw<5>>::checked::<4, 4, 1, false>(alloc, parts) {
            Ok(_) => String::from_str(alloc, "legal"),
            Err(fault) => format!(in alloc; "{fault:?}"),
        },
        Err(fault) => format!(in alloc; "{fault:?}"),
    };
    Ok(shown?)
}

pub(crate) fn told(alloc: Global, changes: &str) -> Result<String, Fail> {
    judged(alloc, changed(alloc, changes)?.as_bytes())
}

// Whether a text is refused by the line with a number.
fn is_refused(alloc: Global, text: &[u8], line: u32) -> bool {
    if text.len() > 65_536 {
        return false;
    }
    match read_parts(alloc, text) {
        Ok(_) => false,
        Err(fault) => fault == ReadFault::Line(line),
    }
}

pub(crate) fn told_prefixes(alloc: Global, changes: &str) -> Result<String, Fail> {
    let text = changed(alloc, changes)?;
    let bytes = text.as_bytes();
    let mut line = 1u32;
    let mut count = 0u32;
    for end in 0..bytes.len() {
        if is_refused(alloc, &bytes[..end], line) {
            count = count.saturating_add(1);
        }
        if bytes[end] == b'\n' {
            line = line.saturating_add(1);
        }
    }
    Ok(format!(in alloc; "{count} of {}", bytes.len())?)
}
