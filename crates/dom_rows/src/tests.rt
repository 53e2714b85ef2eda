mod clocked;
mod configurations;
mod ends;
mod failing;
mod hostile;
mod lines;
mod plans;
mod queues;
mod shared;
mod taps;
mod traces;

use dom_io::{MemShelf, MemSink};
use dom_shell::domino;
use dom_words::{FileList, FnvUnits, Memory, Name, Seq};
use probe_taps::{CountTap, Tap};
use std::alloc::Global;
use std::process::Abort;
use std::test::Fail;

const ROOM: usize = 4096;

const PROGRAM: &str = "struct Packet { int x; int sum; };
int total;
void acc(struct Packet pkt) { total = total + pkt.x; pkt.sum = total; }
";

// A configuration that does what it does, in which no values share a container.
const CONFIG: &str =
    "banzai,1\ntarget,raw-small\nfield,x\nfield,sum\narray,total,1,0\ncontainers,3\nstage,1\natom,1\nslot,0,#0,-,c2,add,c0\nstage,2\nstage,3\nstage,4\nout,c0\nout,c2\nend\n";

// What `compile raw-small` makes of the program, and `upgrade` of the configuration.
const SHARED: &str =
    "banzai,2\ntarget,raw-small\nfield,x\nfield,sum\narray,total,1,0\ncontainers,2\nstage,1\natom,1\nslot,0,#0,-,c1,add,c0\nstage,2\nstage,3\nstage,4\nout,c0\nout,c1\nend\n";

const TRACE: &str = "gap,x\n0,5\n2,7\n";

// Two packets enter queues, and one of them goes through all stages.
const EVENTS: &str = "enter\nenter\nfire,2\nfire,1\nfire,1\nfire,2\nfire,3\nfire,4\nleave\n";

// A program whose last codelet finds no place in four stages, though there are plans for it.
const LATE: &str =
    "struct P { int x; int y; }; int a; int b; void f(struct P pkt) { a = a + 1; b = b + pkt.x; pkt.y = b ^ 1 ^ 2 ^ 3; }";

// A plan for it.
const PLAN: &str = "codelet,0,2\ncodelet,2,1\ncodelet,4,2\ncodelet,5,3\ncodelet,6,4\n";

// A call's status, and what its sink holds then.
#[derive(Drop)]
struct Given {
    status: u8,
    held: Vec<u8>,
}

fn bytes_of(alloc: Global, text: &str) -> Result<Seq<u8>, Memory> {
    let mut bytes = Seq::new(alloc);
    for byte in text.as_bytes() {
        bytes.push(*byte)?;
    }
    Ok(bytes)
}

// The files `p`, `t` and `c`, of which the last has the configuration.
fn files_of(alloc: Global, program: &str, trace: &str) -> Result<FileList, Memory> {
    let mut files = Seq::new(alloc);
    files.push((Name::of(alloc, b"p")?, bytes_of(alloc, program)?))?;
    files.push((Name::of(alloc, b"t")?, bytes_of(alloc, trace)?))?;
    files.push((Name::of(alloc, b"c")?, bytes_of(alloc, CONFIG)?))?;
    Ok(files)
}

fn words_of(alloc: Global, line: &str) -> Result<Vec<String>, Memory> {
    let mut words = Vec::new(alloc);
    for word in line.split_whitespace() {
        let word = String::from_str(alloc, word).map_err(|_| Memory)?;
        words.push(word).map_err(|_| Memory)?;
    }
    Ok(words)
}

// What the words give over these files and one tap, which counts, where these reads and puts fail.
fn answer(
    alloc: Global,
    line: &str,
    files: FileList,
    reads: Vec<u64>,
    puts: Vec<(u64, usize)>,
) -> Result<Given, Memory> {
    let words = words_of(alloc, line)?;
    let mut shelf = MemShelf::new(alloc, files, reads);
    let mut sink = MemSink::new(alloc, ROOM, puts)?;
    let mut taps: Vec<Box<dyn Tap>> = Vec::new(alloc);
    let tap = Box::new(alloc, CountTap::new()).map_err(|_| Memory)?;
    taps.push(tap).map_err(|_| Memory)?;
    let status = domino(
        alloc,
        words.as_slice(),
        &mut shelf,
        &mut sink,
        &FnvUnits,
        taps,
    );
    let held = Vec::from_slice(alloc, sink.held()).map_err(|_| Memory)?;
    Ok(Given { status, held })
}

// What a command gives over a program and a trace, where nothing fails.
fn answered(alloc: Global, command: &str, program: &str, trace: &str) -> Result<Given, Memory> {
    let files = files_of(alloc, program, trace)?;
    answer(alloc, command, files, Vec::new(alloc), Vec::new(alloc))
}

// Each row has a program, a trace and what the command puts over them.
fn puts_each(
    rt: &impl Abort,
    alloc: Global,
    command: &str,
    status: u8,
    rows: &[(&str, &str, &str)],
) -> Result<(), Fail> {
    for (program, trace, text) in rows {
        let given = answered(alloc, command, program, trace)?;
        assert_eq!(rt; given.status, status);
        assert_eq!(rt;
            given.held.as_slice(),
            text.as_bytes(),
            "for {program} and {trace}"
        );
    }
    Ok(())
}

fn run(alloc: Global, program: &str, trace: &str) -> Result<Given, Memory> {
    answered(alloc, "run raw-small p t", program, trace)
}

fn serial(alloc: Global, program: &str, trace: &str) -> Result<Given, Memory> {
    answered(alloc, "serial p t", program, trace)
}

// The parts, one after another, the second of them so many times.
fn text_of(
    alloc: Global,
    first: &str,
    repeated: &str,
    last: &str,
    count: usize,
) -> Result<String, Memory> {
    let mut text = String::from_str(alloc, first).map_err(|_| Memory)?;
    for _k in 0..count {
        text.push_str(repeated).map_err(|_| Memory)?;
    }
    text.push_str(last).map_err(|_| Memory)?;
    Ok(text)
}

// Traces of the program, and their reports.
const REPORTS: [(&str, &str, &str); 6] = [
    (
        PROGRAM,
        TRACE,
        "cycle,x,sum\n4,5,5\n7,7,12\nstate,total,0,12\nplace,total,1\ndone,2,8\n",
    ),
    (PROGRAM, "gap,x\n", "cycle,x,sum\nplace,total,1\ndone,0,4\n"),
    (
        PROGRAM,
        "gap\n1\n",
        "cycle,x,sum\n5,0,0\nplace,total,1\ndone,1,6\n",
    ),
    (
        PROGRAM,
        "gap,sum,x\n0,9,4294967295",
        "cycle,x,sum\n4,-1,-1\nstate,total,0,-1\nplace,total,1\ndone,1,5\n",
    ),
    (
        PROGRAM,
        "gap,x\n0,2147483647\r\n\n0,\"1\"\n",
        "cycle,x,sum\n4,2147483647,2147483647\n5,1,-2147483648\nstate,total,0,-2147483648\nplace,total,1\ndone,2,6\n",
    ),
    (
        PROGRAM,
        "gap,x\n1999995,1\n",
        "cycle,x,sum\n1999999,1,1\nstate,total,0,1\nplace,total,1\ndone,1,2000000\n",
    ),
];

#[test]
fn reports(rt: HostRuntime) -> Result<(), Fail> {
    puts_each(&rt, rt.alloc(), "run raw-small p t", 0, &REPORTS)?;
    puts_each(&rt, rt.alloc(), "exec c t", 0, &REPORTS)
}

#[test]
fn other_names(rt: HostRuntime) -> Result<(), Fail> {
    let program = "struct Packet { int hash1; int _b2; };
int hash1;
void acc(struct Packet pkt) { hash1 = hash1 + pkt.hash1; pkt._b2 = hash1; }
";
    let given = run(rt.alloc(), program, TRACE)?;
    assert_eq!(rt; given.status, 1);
    let program = "struct Packet { int hash1; int _b2; };
int hash5;
void acc(struct Packet pkt) { hash5 = hash5 + pkt.hash1; pkt._b2 = hash5; }
";
    let given = run(rt.alloc(), program, "gap,hash1\n0,5\n")?;
    let report = "cycle,hash1,_b2\n4,5,5\nstate,hash5,0,5\nplace,hash5,1\ndone,1,5\n";
    assert_eq!(rt; given.status, 0);
    assert_eq!(rt; given.held.as_slice(), report.as_bytes());
    Ok(())
}

const REFUSED_TRACES: [(&str, &str, &str); 10] = [
    (PROGRAM, "", "refused,trace,no-header\n"),
    (PROGRAM, "\n\n", "refused,trace,no-header\n"),
    (PROGRAM, "ga", "refused,trace,unknown-column,1\n"),
    (PROGRAM, "gap,y\n", "refused,trace,unknown-column,2\n"),
    (PROGRAM, "gap,x,sum,x\n", "refused,trace,column-twice,4\n"),
    (PROGRAM, "gap,x\n0\n", "refused,trace,row-length,1\n"),
    (
        PROGRAM,
        "gap,x\n0,1\n0,1,1\n",
        "refused,trace,row-length,2\n",
    ),
    (PROGRAM, "gap,x\n0,\n", "refused,trace,value,1,2\n"),
    (PROGRAM, "gap,x\n\n0,1\n-1,5\n", "refused,trace,value,2,1\n"),
    (
        PROGRAM,
        "gap,x\n0,4294967296\n",
        "refused,trace,value,1,2\n",
    ),
];

#[test]
fn refused_traces(rt: HostRuntime) -> Result<(), Fail> {
    puts_each(&rt, rt.alloc(), "run raw-small p t", 3, &REFUSED_TRACES)?;
    puts_each(&rt, rt.alloc(), "serial p t", 3, &REFUSED_TRACES)?;
    let clocked = run(rt.alloc(), PROGRAM, "gap,x\n1999996,1\n")?;
    assert_eq!(rt;
        clocked.held.as_slice(),
        b"refused,trace,cycles,2000001\n".as_slice()
    );
    let in_turn = serial(rt.alloc(), PROGRAM, "gap,x\n2000000,1\n")?;
    assert_eq!(rt;
        in_turn.held.as_slice(),
        b"refused,trace,cycles,2000001\n".as_slice()
    );
    Ok(())
}

const REFUSED_WORDS: [&str; 48] = [
    "",
    "run",
    "run raw-tiny p t",
    "run raw-small p",
    "serial p",
    "serial p t u",
    "serial raw-small p t",
    "run raw-small p t u",
    "compile raw-small",
    "compile raw-tiny p",
    "compile raw-small p t",
    "compile p raw-small",
    "exec c",
    "exec c t u",
    "exec raw-small c t",
    "upgrade",
    "upgrade c t",
    "selfrun raw-small 7",
    "selfrun raw-tiny 7 1",
    "selfrun raw-small 07 1",
    "selfrun raw-small -7 1",
    "selfrun raw-small 4294967296 1",
    "selfrun raw-small 7 400001",
    "probe c t",
    "probe c t 0",
    "probe c t 33",
    "probe c t 02",
    "probe c t +2",
    "probe c t -2",
    "probe c t two",
    "probe c t 2 2",
    "codelets raw-small",
    "codelets raw-tiny p",
    "codelets raw-small p t",
    "planned raw-small p",
    "planned raw-tiny p t",
    "planned raw-small p t c",
    "elastic c t",
    "elastic c t p t",
    "schedule c t x 8",
    "schedule c t x 8 4 4",
    "schedule c t x 0 4",
    "schedule c t x 65537 4",
    "schedule c t x 08 4",
    "schedule c t x 8 0",
    "schedule c t x 8 17",
    "schedule c t x 8 04",
    "schedule c t x 8 +4",
];

fn refuses_words(rt: &impl Abort, alloc: Global, lines: &[&str]) -> Result<(), Fail> {
    for line in lines {
        let files = files_of(alloc, PROGRAM, TRACE)?;
        let given = answer(alloc, line, files, Vec::new(alloc), Vec::new(alloc))?;
        assert_eq!(rt; given.status, 2, "for {line}");
        assert_eq!(rt;
            given.held.as_slice(),
            b"refused,words\n".as_slice(),
            "for {line}"
        );
    }
    Ok(())
}

#[test]
fn refused_words(rt: HostRuntime) -> Result<(), Fail> {
    refuses_words(&rt, rt.alloc(), &REFUSED_WORDS)
}

const READS: [(&str, &str, &str, u64, u8); 35] = [
    ("run raw-small p t", PROGRAM, TRACE, 2, 0),
    ("serial p t", PROGRAM, TRACE, 2, 0),
    ("run raw-small p t", PROGRAM, "no trace", 2, 3),
    ("serial p t", PROGRAM, "no trace", 2, 3),
    ("run raw-small p t", "no program", TRACE, 1, 1),
    ("serial p t", "no program", TRACE, 1, 1),
    ("serial p", PROGRAM, TRACE, 0, 2),
    ("compile raw-small p", PROGRAM, TRACE, 1, 0),
    ("compile raw-small p", "no program", TRACE, 1, 1),
    ("exec c t", PROGRAM, TRACE, 2, 0),
    ("exec c t", PROGRAM, "no trace", 2, 3),
    ("exec p t", PROGRAM, TRACE, 1, 3),
    ("watch c t", PROGRAM, TRACE, 2, 0),
    ("watch c t", PROGRAM, "no trace", 2, 3),
    ("watch p t", PROGRAM, TRACE, 1, 3),
    ("probe c t 2", PROGRAM, TRACE, 2, 0),
    ("probe c t 2", PROGRAM, "no trace", 2, 3),
    ("probe p t 2", PROGRAM, TRACE, 1, 3),
    ("probe c t 5", PROGRAM, TRACE, 1, 3),
    ("upgrade c", PROGRAM, TRACE, 1, 0),
    ("upgrade p", PROGRAM, TRACE, 1, 3),
    ("selfrun raw-small 7 1", PROGRAM, TRACE, 0, 0),
    ("codelets raw-small p", PROGRAM, TRACE, 1, 0),
    ("codelets raw-small p", "no program", TRACE, 1, 1),
    ("planned raw-small p t", LATE, PLAN, 2, 0),
    ("planned raw-small p t", LATE, "no plan", 2, 3),
    ("planned raw-small p t", "no program", PLAN, 1, 1),
    ("elastic c p t", TRACE, EVENTS, 3, 0),
    ("elastic c p t", TRACE, "no event", 3, 3),
    ("elastic c p t", "no trace", EVENTS, 2, 3),
    ("elastic p c t", TRACE, EVENTS, 1, 3),
    ("schedule c t x 8 4", PROGRAM, TRACE, 2, 0),
    ("schedule c t x 8 4", PROGRAM, "no trace", 2, 3),
    ("schedule c t y 8 4", PROGRAM, TRACE, 1, 3),
    ("schedule p t x 8 4", PROGRAM, TRACE, 1, 3),
];

// A row has the number of reads that can succeed: none after them can.
fn reads_so_many(
    rt: &impl Abort,
    alloc: Global,
    rows: &[(&str, &str, &str, u64, u8)],
) -> Result<(), Fail> {
    for (command, program, trace, reads, status) in rows {
        let files = files_of(alloc, program, trace)?;
        let mut failing = Vec::new(alloc);
        for more in 1..9 {
            failing.push(u64::saturating_add(*reads, more))?;
        }
        let given = answer(alloc, command, files, failing, Vec::new(alloc))?;
        assert_eq!(rt; given.status, *status, "for {command}");
    }
    Ok(())
}

// Each file is read once, in order: where no further read can succeed, the status is the same.
#[test]
fn reads(rt: HostRuntime) -> Result<(), Fail> {
    reads_so_many(&rt, rt.alloc(), &READS)
}

const WHOLE_REPORTS: [(&str, &str); 9] = [
    (
        "run raw-small p t",
        "cycle,x,sum\n4,5,5\n7,7,12\nstate,total,0,12\nplace,total,1\ndone,2,8\n",
    ),
    (
        "exec c t",
        "cycle,x,sum\n4,5,5\n7,7,12\nstate,total,0,12\nplace,total,1\ndone,2,8\n",
    ),
    (
        "serial p t",
        "packet,x,sum\n1,5,5\n2,7,12\nstate,total,0,12\ndone,2\n",
    ),
    (
        "watch c t",
        "cycle,0\nreg,0,5,0,0\ncycle,1\nreg,1,5,0,5\ntouch,1,total,0\ncycle,2\nreg,2,5,0,5\ncycle,3\nreg,0,7,0,0\nreg,3,5,0,5\ncycle,4\nout,5,5\nreg,1,7,0,12\ntouch,1,total,0\ncycle,5\nreg,2,7,0,12\ncycle,6\nreg,3,7,0,12\ncycle,7\nout,7,12\ndone,2,8\n",
    ),
    (
        "probe c t 2",
        "cycle,x,sum\n4,5,5\n7,7,12\nstate,total,0,12\nplace,total,1\ntap,1,2\ndone,2,8\n",
    ),
    ("compile raw-small p", SHARED),
    ("codelets raw-small p", "codelet,0,1,stateful\n"),
    (
        "schedule c t x 8 4",
        "cycle,x,sum\n7,5,5\n11,7,12\nstate,total,0,12\ndone,2,12\n",
    ),
    (
        "selfrun raw-small 7 1",
        "selfrun,raw-small,7,1\npackets,1\ncycles,5\nfold,1340218\ntotal,40140\n",
    ),
];

// One line is one put: where put k takes nothing and fails, the lines before it have been put.
fn puts_by_lines(rt: &impl Abort, alloc: Global, rows: &[(&str, &str)]) -> Result<(), Fail> {
    for (command, report) in rows {
        let mut before = String::new(alloc);
        let mut number = 0u64;
        for line in report.lines() {
            number = number.saturating_add(1);
            let files = files_of(alloc, PROGRAM, TRACE)?;
            let failing = vec![in alloc; (number, 0)]?;
            let given = answer(alloc, command, files, Vec::new(alloc), failing)?;
            assert_eq!(rt; given.status, 5);
            assert_eq!(rt; given.held.as_slice(), before.as_bytes());
            before.push_str(line)?;
            before.push_str("\n")?;
        }
        let files = files_of(alloc, PROGRAM, TRACE)?;
        let failing = vec![in alloc; (number.saturating_add(1), 0)]?;
        let given = answer(alloc, command, files, Vec::new(alloc), failing)?;
        assert_eq!(rt; given.status, 0);
        assert_eq!(rt; given.held.as_slice(), before.as_bytes());
    }
    Ok(())
}

#[test]
fn puts(rt: HostRuntime) -> Result<(), Fail> {
    puts_by_lines(&rt, rt.alloc(), &WHOLE_REPORTS)
}

// What stands before a body, and before the condition of a guard: 78 and 80 bytes.
const BODY: &str = "#define K 1 struct P { int x; int y; }; int s; int a[8]; void f(struct P p) { ";

const GUARD: &str =
    "#define K 1 struct P { int x; int y; }; int s; int a[8]; void f(struct P p) if (";

// 64 fields, and 32 globals.
const FIELDS: &str =
    "struct P { int f0; int f1; int f2; int f3; int f4; int f5; int f6; int f7; int f8; int f9; int f10; int f11; int f12; int f13; int f14; int f15; int f16; int f17; int f18; int f19; int f20; int f21; int f22; int f23; int f24; int f25; int f26; int f27; int f28; int f29; int f30; int f31; int f32; int f33; int f34; int f35; int f36; int f37; int f38; int f39; int f40; int f41; int f42; int f43; int f44; int f45; int f46; int f47; int f48; int f49; int f50; int f51; int f52; int f53; int f54; int f55; int f56; int f57; int f58; int f59; int f60; int f61; int f62; int f63; ";

const GLOBALS: &str =
    "struct P { int x; }; int g0; int g1; int g2; int g3; int g4; int g5; int g6; int g7; int g8; int g9; int g10; int g11; int g12; int g13; int g14; int g15; int g16; int g17; int g18; int g19; int g20; int g21; int g22; int g23; int g24; int g25; int g26; int g27; int g28; int g29; int g30; int g31; ";

const SERIAL_REPORTS: [(&str, &str, &str); 10] = [
    (
        PROGRAM,
        TRACE,
        "packet,x,sum\n1,5,5\n2,7,12\nstate,total,0,12\ndone,2\n",
    ),
    (PROGRAM, "gap,x\n", "packet,x,sum\ndone,0\n"),
    (PROGRAM, "gap\n1999999\n", "packet,x,sum\n1,0,0\ndone,1\n"),
    (
        "struct P { int k; int x; };
int a;
int b;
void one(struct P p) if (p.k == 0) { a = a + p.x; p.k = 1; }
void two(struct P p) if (p.k == 0) { b = b + 1; }
",
        "gap,k,x\n0,0,5\n0,2,7\n",
        "packet,k,x\n1,1,5\n2,2,7\nstate,a,0,5\nstate,b,0,1\ndone,2\n",
    ),
    (
        "struct P { int x; }; int s; void f(struct P pkt) { pkt.x = 2 + 3 * 4 << 1 | 1 == 1; }",
        "gap\n0\n",
        "packet,x\n1,29\ndone,1\n",
    ),
    (
        "struct P { int x; }; int s; void f(struct P pkt) { pkt.x = 10 - 4 - 3; }",
        "gap\n0\n",
        "packet,x\n1,3\ndone,1\n",
    ),
    (
        "struct P { int x; }; int s; void f(struct P pkt) { pkt.x = hash1(pkt.x); }",
        "gap\n0\n",
        "packet,x\n1,303091727\ndone,1\n",
    ),
    (
        "struct P { int i; int x; }; int a[3] = -2; int b[1]; void f(struct P p) { a[p.i] = 0; } void g(struct P p) { p.x = p.x * 2; b[0] = p.x; }",
        "gap,i,x\n0,-2,-2\n",
        "packet,i,x\n1,-2,-4\nstate,a,0,-2\nstate,a,1,-2\nstate,b,0,-4\ndone,1\n",
    ),
    (
        "#define K 1 struct P { int x; }; int a[8]; void f(struct P p) { a[K] = a[1] + 1; a[1] = a[0x1]; }",
        "gap\n0\n",
        "packet,x\n1,0\nstate,a,1,1\ndone,1\n",
    ),
    (
        "struct P { int x; }; int a[8]; void f(struct P p) { a[-1] = p.x; }",
        "gap,x\n0,3\n",
        "packet,x\n1,3\nstate,a,7,3\ndone,1\n",
    ),
];

#[test]
fn serial_reports(rt: HostRuntime) -> Result<(), Fail> {
    puts_each(&rt, rt.alloc(), "serial p t", 0, &SERIAL_REPORTS)
}

const REFUSED_DECLARATIONS: [(&str, &str, &str); 34] = [
    ("", "@", "refused,lex,bad-byte,0\n"),
    (
        "",
        "struct P { int x; }; /*",
        "refused,lex,open-comment,21\n",
    ),
    (BODY, "s = 4294967296; }", "refused,lex,big-literal,82\n"),
    ("", "", "refused,parse,unexpected,0\n"),
    (BODY, "while (p.x) { } }", "refused,parse,forbidden,78\n"),
    (BODY, "s = 1 }", "refused,parse,unexpected,84\n"),
    (BODY, "s = q; @", "refused,lex,bad-byte,85\n"),
    (BODY, "s = q; s", "refused,parse,unexpected,86\n"),
    (
        "",
        "struct P { int x; }; int s; int s; void f(struct P p) { }",
        "refused,check,twice,32\n",
    ),
    (
        "",
        "#define s 1 #define s 1 struct P { int x; };  void f(struct P p) { }",
        "refused,check,twice,20\n",
    ),
    (
        "",
        "#define hash4h 1 struct P { int x; };  void f(struct P p) { }",
        "refused,check,shape-of-name,8\n",
    ),
    (
        "",
        "struct P { int x; }; int hash1; void f(struct P p) { }",
        "refused,check,shape-of-name,25\n",
    ),
    (
        GLOBALS,
        "int hash1; void f(struct P p) { }",
        "refused,check,shape-of-name,303\n",
    ),
    (
        GLOBALS,
        "int g0; void f(struct P p) { }",
        "refused,check,twice,303\n",
    ),
    (
        GLOBALS,
        "int g[q]; void f(struct P p) { }",
        "refused,check,too-large-arrays,303\n",
    ),
    (
        "",
        "struct P { int x; int x; }; void f(struct P p) { }",
        "refused,check,twice,22\n",
    ),
    (
        FIELDS,
        "int f0; }; void f(struct P p) { }",
        "refused,check,twice,581\n",
    ),
    (
        FIELDS,
        "int f; }; void f(struct P p) { }",
        "refused,check,too-large-fields,581\n",
    ),
    (
        "",
        "struct P { int x; }; int s[0] = q; void f(struct P p) { }",
        "refused,check,too-large-length,25\n",
    ),
    (
        "",
        "struct P { int x; }; int s[1048577]; void f(struct P p) { }",
        "refused,check,too-large-length,25\n",
    ),
    (
        "",
        "#define N -1 struct P { int x; }; int s[N]; void f(struct P p) { }",
        "refused,check,too-large-length,38\n",
    ),
    (
        "",
        "struct P { int x; }; int s[1048576]; int t = q; void f(struct P p) { }",
        "refused,check,too-large-words,41\n",
    ),
    (
        "",
        "struct P { int x; }; int s[q] = r; void f(struct P p) { }",
        "refused,check,unknown-name,27\n",
    ),
    (
        "",
        "struct P { int x; }; int s[hash1]; void f(struct P p) { }",
        "refused,check,unknown-name,27\n",
    ),
    (
        "",
        "struct P { int x; }; int s[s]; void f(struct P p) { }",
        "refused,check,shape-of-name,27\n",
    ),
    (
        "",
        "struct P { int x; }; int s; int t[s] = q; void f(struct P p) { }",
        "refused,check,shape-of-name,34\n",
    ),
    (
        "",
        "struct P { int x; }; int s = q; void f(struct P p) { }",
        "refused,check,unknown-name,29\n",
    ),
    (
        "",
        "struct P { int x; }; int s = hash1; void f(struct P p) { }",
        "refused,check,unknown-name,29\n",
    ),
    (
        "",
        "struct P { int x; }; int s = {s}; void f(struct P p) { }",
        "refused,check,shape-of-name,30\n",
    ),
    (
        "",
        "struct P { int x; }; int p; void f(struct Q p) { }",
        "refused,check,unknown-name,42\n",
    ),
    (
        "",
        "struct P { int x; }; int p; void f(struct P p) { }",
        "refused,check,twice,44\n",
    ),
    (
        "",
        "struct P { int x; }; void f(struct P hash1) { }",
        "refused,check,shape-of-name,37\n",
    ),
    (
        "",
        "struct P { int x; }; void f(struct P p) { } void g(struct P p) { p.y = 1; }",
        "refused,check,unknown-name,67\n",
    ),
    (
        "",
        "struct P { int x; }; void f(struct P p) { } void g(struct P q) { q.x = p.x; }",
        "refused,check,unknown-name,71\n",
    ),
];

const REFUSED_NAMES: [(&str, &str, &str); 15] = [
    (BODY, "s = q.x; }", "refused,check,unknown-name,82\n"),
    (BODY, "s = hash1.x; }", "refused,check,unknown-name,82\n"),
    (BODY, "s = s.z; }", "refused,check,shape-of-name,82\n"),
    (BODY, "s = p.z; }", "refused,check,unknown-name,84\n"),
    (BODY, "s = hash1; }", "refused,check,shape-of-name,82\n"),
    (BODY, "s = a; }", "refused,check,shape-of-name,82\n"),
    (BODY, "s = p; }", "refused,check,shape-of-name,82\n"),
    (BODY, "s = q; }", "refused,check,unknown-name,82\n"),
    (BODY, "r = q; }", "refused,check,unknown-name,82\n"),
    (BODY, "q = 1; }", "refused,check,unknown-name,78\n"),
    (BODY, "K = 1; }", "refused,check,shape-of-name,78\n"),
    (BODY, "a = 1; }", "refused,check,shape-of-name,78\n"),
    (BODY, "p = 1; }", "refused,check,shape-of-name,78\n"),
    (BODY, "hash1 = 1; }", "refused,check,shape-of-name,78\n"),
    (BODY, "q.x = 1; }", "refused,check,unknown-name,78\n"),
];

const REFUSED_INDEXES: [(&str, &str, &str); 33] = [
    (BODY, "s = q[r]; }", "refused,check,unknown-name,82\n"),
    (BODY, "s = s[q]; }", "refused,check,shape-of-name,82\n"),
    (BODY, "s = K[0]; }", "refused,check,shape-of-name,82\n"),
    (BODY, "s = hash1[0]; }", "refused,check,shape-of-name,82\n"),
    (BODY, "hash1[0] = 1; }", "refused,check,shape-of-name,78\n"),
    (BODY, "s = a[q]; }", "refused,check,unknown-name,84\n"),
    (BODY, "s = a[hash1]; }", "refused,check,unknown-name,84\n"),
    (BODY, "s = a[s]; }", "refused,check,bad-index,84\n"),
    (BODY, "s = a[p]; }", "refused,check,bad-index,84\n"),
    (BODY, "s = a[q.x]; }", "refused,check,unknown-name,84\n"),
    (BODY, "s = a[s.x]; }", "refused,check,shape-of-name,84\n"),
    (BODY, "s = a[p.z]; }", "refused,check,unknown-name,86\n"),
    (
        BODY,
        "s = a[((p.x) + 1)]; }",
        "refused,check,bad-index,86\n",
    ),
    (BODY, "s = a[-(1)]; }", "refused,check,bad-index,84\n"),
    (BODY, "s = a[hash1(1)]; }", "refused,check,bad-index,84\n"),
    (
        BODY,
        "s = a[0]; s = a[1 + 1]; }",
        "refused,check,bad-index,94\n",
    ),
    (BODY, "s = a[0] + a[8]; }", "refused,check,two-indexes,89\n"),
    (
        BODY,
        "a[p.x] = 1; if (a[p.x]) { } else { a[p.y] = 2; } }",
        "refused,check,two-indexes,113\n",
    ),
    (
        BODY,
        "a[K] = a[1]; } void g(struct P q) { a[q.x] = 2; }",
        "refused,check,two-indexes,114\n",
    ),
    (BODY, "s = q(r); }", "refused,check,unknown-name,82\n"),
    (BODY, "s = s(q); }", "refused,check,shape-of-name,82\n"),
    (BODY, "s = p(); }", "refused,check,shape-of-name,82\n"),
    (BODY, "s = hash2(q); }", "refused,check,hash-args,82\n"),
    (BODY, "s = hash1(); }", "refused,check,hash-args,82\n"),
    (BODY, "s = hash1(q); }", "refused,check,unknown-name,88\n"),
    (
        BODY,
        "p.x = a[p.x]; }",
        "refused,check,index-assigned-later,78\n",
    ),
    (
        BODY,
        "a[p.x] = 1; p.z = 1; }",
        "refused,check,unknown-name,92\n",
    ),
    (
        BODY,
        "a[p.x] = 1; } void g(struct P q) { q.y = 1; q.x = 1; }",
        "refused,check,index-assigned-later,122\n",
    ),
    (GUARD, "s) { }", "refused,check,shape-of-name,80\n"),
    (GUARD, "a[q]) { }", "refused,check,shape-of-name,80\n"),
    (GUARD, "q[s]) { }", "refused,check,unknown-name,80\n"),
    (
        GUARD,
        "p.x + q) { r = 1; }",
        "refused,check,unknown-name,86\n",
    ),
    (GUARD, "hash1(a)) { }", "refused,check,shape-of-name,86\n"),
];

// A row has the two parts of a program, and its refusal.
fn refuses_programs(
    rt: &impl Abort,
    alloc: Global,
    rows: &[(&str, &str, &str)],
) -> Result<(), Fail> {
    for (head, rest, line) in rows {
        let program = text_of(alloc, head, "", rest, 0)?;
        let given = serial(alloc, program.as_str(), "no trace")?;
        assert_eq!(rt; given.status, 1, "for {rest}");
        assert_eq!(rt; given.held.as_slice(), line.as_bytes(), "for {rest}");
    }
    Ok(())
}

#[test]
fn refused_declarations(rt: HostRuntime) -> Result<(), Fail> {
    refuses_programs(&rt, rt.alloc(), &REFUSED_DECLARATIONS)
}

#[test]
fn refused_names(rt: HostRuntime) -> Result<(), Fail> {
    refuses_programs(&rt, rt.alloc(), &REFUSED_NAMES)
}

#[test]
fn refused_indexes(rt: HostRuntime) -> Result<(), Fail> {
    refuses_programs(&rt, rt.alloc(), &REFUSED_INDEXES)
}

// What stands before a value.
const VALUE: &str = "struct P { int x; }; int s; void f(struct P pkt) { s = ";

const LONG_PROGRAMS: [(&str, &str, &str, usize, &str); 4] = [
    ("", " ", "", 65536, "refused,parse,unexpected,65536\n"),
    ("", " ", "", 65537, "refused,limit,program\n"),
    ("", ";", "", 16385, "refused,lex,too-many-tokens,16384\n"),
    (VALUE, "(", "1", 64, "refused,parse,too-nested,118\n"),
];

#[test]
fn long_programs(rt: HostRuntime) -> Result<(), Fail> {
    for (first, repeated, last, count, line) in LONG_PROGRAMS {
        let program = text_of(rt.alloc(), first, repeated, last, count)?;
        let given = serial(rt.alloc(), program.as_str(), "no trace")?;
        assert_eq!(rt; given.status, 1);
        assert_eq!(rt; given.held.as_slice(), line.as_bytes());
    }
    Ok(())
}
