//! Which texts are programs, and the fault of those that are none.

use crate::tests::rows::{parts, put_times};
use dom_lexer::lex;
use dom_parser::{ParseFault, parse};
use dom_words::read_count;
use std::alloc::Global;
use std::test::Fail;

// What stands before a body, before a value in a body, and before the condition of a guard: 51, 55 and 43 bytes. The
// first two have 19 and 21 tokens, and one construct is open behind them.
const BODY: &str = "struct P { int x; }; int s; void f(struct P pkt) { ";

const VALUE: &str = "struct P { int x; }; int s; void f(struct P pkt) { s = ";

const GUARD: &str = "struct P { int x; }; void f(struct P p) if ";

// Four constructs are open behind these 79 bytes: the body's block, the two `if`s of a chain, and a block.
const CHAIN: &str =
    "struct P { int x; }; int s; void f(struct P pkt) { if (1) s = 1; else if (1) { ";

pub(crate) const BODIES: &str = " => None
s = - - s; => None
s = --1 - -2; => None
s = -; => Some(Unexpected(56))
s = hash2(s, 1) ? pkt.x : 0; => None
s = h(); => None
s = h(s,); => Some(Unexpected(59))
if (s) s = 1; else if (s) { s = 2; } else pkt.x = 3; => None
if (s) if (s) s = 1; => Some(Unexpected(58))
s + 1; => Some(Unexpected(53))
s = 1 => Some(Unexpected(57))
s = 2 + 3 * 4 << 1 | 1 == 1; => None
s = goto; => Some(Forbidden(55))
int t; => Some(Unexpected(51))
s = 1;; => Some(Unexpected(57))
while => Some(Forbidden(51))
for => Some(Forbidden(51))
do => Some(Forbidden(51))
switch => Some(Forbidden(51))
case => Some(Forbidden(51))
default => Some(Forbidden(51))
goto => Some(Forbidden(51))
break => Some(Forbidden(51))
continue => Some(Forbidden(51))
return => Some(Forbidden(51))
sizeof => Some(Forbidden(51))
char => Some(Forbidden(51))
short => Some(Forbidden(51))
long => Some(Forbidden(51))
unsigned => Some(Forbidden(51))
signed => Some(Forbidden(51))
float => Some(Forbidden(51))
double => Some(Forbidden(51))
enum => Some(Forbidden(51))
union => Some(Forbidden(51))
typedef => Some(Forbidden(51))
static => Some(Forbidden(51))
const => Some(Forbidden(51))
volatile => Some(Forbidden(51))
include => Some(Forbidden(51))";

pub(crate) const PROGRAMS: &str = " => Some(Unexpected(0))
    => Some(Unexpected(3))
struct P { }; void f(struct P p) { } => Some(Unexpected(11))
struct P { int x; }; => Some(Unexpected(20))
#define K -3 struct P { int k; int x; }; int a[8] = {K}; void f(struct P p) if (p.k < 2) { a[p.k] = a[p.k] + 1; } void g(struct P p) { } => None
struct P { int x; }; void f(struct P p) { } void g(struct P q) { q.x = 1; } => None
struct P { int x; }; void f(struct P p) if (p.x) { } void g(struct P q) if (!q.x) { } => None
struct P { int x; }; void f(struct P p) if { } => Some(Unexpected(43))
struct P { int x; }; void f(struct P p) if (1) if (2) { } => Some(Unexpected(47))
struct P { int x; }; void f(struct P p) { } int s; => Some(Unexpected(44))
struct P { int x; }; void f(struct P p) { } void g(struct P q) { } s => Some(Unexpected(67))
struct P { int x; }; void f(struct P p) { } void => Some(Unexpected(48))
void f(struct P p) { } struct P { int x; }; => Some(Unexpected(0))
struct P { int x; }; struct Q { int x; }; => Some(Unexpected(21))
struct P { int x; }; void f(struct P p) { while (p.x) { } } => Some(Forbidden(42))";

// What stands first, in the middle and last, the last two rows with 16,384 tokens; and so often what opens before the middle and what closes behind it.
pub(crate) const DEPTHS: &str = "value|(|1|)|; }|63 => None
value|(|1|)|; }|64 => Some(TooNested(118))
value|a[|1|]|; }|63 => None
value|a[|1|]|; }|64 => Some(TooNested(182))
value|h(||)|; }|63 => None
value|h(||)|; }|64 => Some(TooNested(182))
value|- |1||; }|64 => None
value|-~!|s||; }|21 => None
value|-~!|-s||; }|21 => Some(TooNested(118))
value|-~!|~1||; }|21 => Some(TooNested(118))
value|-~!|!1||; }|21 => Some(TooNested(118))
value|(|-;|||63 => Some(TooNested(118))
value|1?1:|1||; }|63 => None
value|1?1:|1||; }|64 => Some(TooNested(308))
guard|(|-1|)|{ }|64 => None
guard|(|-|||64 => Some(TooNested(107))
body|if (1) { |s = (1);|}|}|31 => None
body|if (1) { |s = ((1));|}|}|31 => Some(TooNested(335))
body|if (1) { ||}|}|32 => Some(TooNested(333))
body|if (1) s = 1; else |s = 1;||}|62 => None
body|if (1) s = 1; else |s = 1;||}|63 => Some(TooNested(1232))
chain|if (1) { |s = 1;|}|} }|30 => None
chain|if (1) { |if (1) s = 1;|}|} }|30 => Some(TooNested(349))
value||1| + 1|; }|8180 => None
body|s=1;|||}|4091 => None";

// What stands between all tokens of a program; `<LF>` is a line feed.
pub(crate) const COMMENTS: &str = "/* c */ => None
// c<LF> => None";

// The fault of a text, if it is no program.
fn fault(alloc: Global, text: &[u8]) -> Result<Option<ParseFault>, Fail> {
    if text.len() > 65_536 {
        return Ok(Err("the text is too long")?);
    }
    let tokens = lex(alloc, text)?;
    match parse(alloc, &tokens) {
        Ok(_) => Ok(None),
        Err(fault) => Ok(Some(fault)),
    }
}

pub(crate) fn told(alloc: Global, text: &str) -> Result<String, Fail> {
    let fault = fault(alloc, text.as_bytes())?;
    Ok(format!(in alloc; "{fault:?}")?)
}

// The same of a program with a body.
pub(crate) fn told_body(alloc: Global, body: &str) -> Result<String, Fail> {
    let text = format!(in alloc; "{BODY}{body} }}")?;
    told(alloc, text.as_str())
}

fn front(name: &str) -> &'static str {
    if name == "value" {
        VALUE
    } else if name == "guard" {
        GUARD
    } else if name == "chain" {
        CHAIN
    } else {
        BODY
    }
}

// The same of a text with nested parts.
pub(crate) fn told_nested(alloc: Global, asked: &str) -> Result<String, Fail> {
    let (first, rest) = parts(asked);
    let (open, rest) = parts(rest);
    let (middle, rest) = parts(rest);
    let (close, rest) = parts(rest);
    let (last, count) = parts(rest);
    let count = read_count(count.as_bytes()).unwrap_or(0);
    let mut text = String::from_str(alloc, front(first))?;
    put_times(&mut text, open, count)?;
    text.push_str(middle)?;
    put_times(&mut text, close, count)?;
    text.push_str(last)?;
    told(alloc, text.as_str())
}

const SPACED: &str =
    " # define K - 3 struct P { int k ; int x ; } ; int a [ 8 ] = { K } ; int s = 1 ; void f ( struct P p ) if ( p . k < 2 ) { if ( s ) s = 1 ; else if ( p . x ) { a [ p . k ] = hash2 ( s , 1 ) ; } else p . x = s ? 1 : ~ s ; } ";

// The same of a program with a comment between all tokens.
pub(crate) fn told_comment(alloc: Global, comment: &str) -> Result<String, Fail> {
    let comment = comment.replace(alloc, "<LF>", "\n")?;
    let text = SPACED.replace(alloc, " ", comment.as_str())?;
    told(alloc, text.as_str())
}
