use super::{PROGRAM, TRACE, answer, answered, files_of, puts_each, text_of};
use dom_words::{Name, Seq};
use std::alloc::Global;
use std::process::Abort;
use std::test::Fail;

// A configuration of the program in the first version of the format.
const FIRST_VERSION: &str =
    "banzai,1\ntarget,raw-small\nfield,x\nfield,sum\narray,total,1,0\ncontainers,3\nstage,1\natom,1\nslot,0,#0,-,c2,add,c0\nstage,2\nstage,3\nstage,4\nout,c0\nout,c2\nend\n";

// A part of it, what stands in its place, and what is refused then.
const CHANGED_LINES: [(&str, &str, &str); 16] = [
    (FIRST_VERSION, "", "line,1"),
    ("end\n", "end", "line,15"),
    ("end\n", "end\nend\n", "line,16"),
    ("field,x", "field,while", "line,3"),
    ("total,1,0", "total,01,0", "line,5"),
    ("containers,3", "containers,4294967296", "line,6"),
    ("-,c2", "-,c02", "line,9"),
    ("#0", "#-0", "line,9"),
    ("add,c0", "add,#2147483648", "line,9"),
    (
        "add,c0",
        "if,eq,s0,#0,if,eq,s0,#1,if,eq,s0,#2,keep,keep,keep,keep",
        "line,9",
    ),
    ("out,c2\n", "", "line,14"),
    ("raw-small", "RAW", "line,2"),
    ("raw-small", "raw-tiny", "unknown-target"),
    ("field,sum", "field,x", "bad-number,0,0"),
    ("total,1,0", "total,0,0", "bad-number,0,0"),
    ("containers,3", "containers,1", "bad-number,0,0"),
];

const BROKEN_RULES: [(&str, &str, &str); 12] = [
    ("stage,4\n", "stage,4\nstage,5\n", "depth,0,0"),
    (
        "containers,3\nstage,1\natom,1\nslot,0,#0,-,c2,add,c0\n",
        "array,b,1,0\ncontainers,3\nstage,1\natom,1\nslot,0,#0,-,c2,add,c0\natom,1\nslot,1,#0,-,-,keep\n",
        "width,1,2",
    ),
    ("slot,0,#0", "slot,0,c3", "bad-number,1,1"),
    ("add,c0", "if,eq,s1,#0,keep,add,c0", "bad-number,1,1"),
    ("add,c0", "if,eq,s0,#0,keep,add,c0", "pattern,1,1"),
    ("add,c0", "put,#16", "wide-constant,1,1"),
    ("slot,0,#0", "slot,0,c2", "read-before-write,1,1"),
    (
        "containers,3\nstage,1\natom,1\nslot,0,#0,-,c2,add,c0\nstage,2\n",
        "containers,4\nstage,1\natom,1\nslot,0,#0,-,c2,add,c0\nstage,2\nbin,c3,mul,c0,c2\n",
        "mul-operator,2,1",
    ),
    (
        "stage,2\n",
        "stage,2\nbin,c2,add,c0,c0\n",
        "container-twice,2,1",
    ),
    (
        "stage,2\n",
        "stage,2\nbin,c1,add,c0,c0\n",
        "container-twice,2,1",
    ),
    ("out,c0", "out,c3", "bad-number,5,1"),
    (
        "containers,3\nstage,1\natom,1\nslot,0,#0,-,c2,add,c0\nstage,2\nstage,3\nstage,4\nout,c0\n",
        "containers,4\nstage,1\natom,1\nslot,0,#0,-,c2,add,c0\nstage,2\nstage,3\nstage,4\nout,c3\n",
        "read-before-write,5,1",
    ),
];

// What `exec` puts of a configuration that it refuses.
fn refuses(rt: &impl Abort, alloc: Global, config: &str, line: &str) -> Result<(), Fail> {
    let given = answered(alloc, "exec p t", config, TRACE)?;
    assert_eq!(rt; given.status, 3, "for {line}");
    assert_eq!(rt; given.held.as_slice(), line.as_bytes(), "for {line}");
    Ok(())
}

fn refuses_changes(
    rt: &impl Abort,
    alloc: Global,
    rows: &[(&str, &str, &str)],
) -> Result<(), Fail> {
    for (old, new, refusal) in rows {
        let (before, after) = FIRST_VERSION.split_once(old).ok_or("no part")?;
        let text = text_of(alloc, before, new, after, 1)?;
        let line = format!(in alloc; "refused,config,{refusal}\n")?;
        refuses(rt, alloc, text.as_str(), line.as_str())?;
    }
    Ok(())
}

#[test]
fn hostile_configs(rt: HostRuntime) -> Result<(), Fail> {
    refuses_changes(&rt, rt.alloc(), &CHANGED_LINES)?;
    refuses_changes(&rt, rt.alloc(), &BROKEN_RULES)
}

// Of each text that ends too early, the line in which it ends may not stand.
#[test]
fn config_prefixes(rt: HostRuntime) -> Result<(), Fail> {
    let alloc = rt.alloc();
    let whole = answered(alloc, "exec p t", FIRST_VERSION, TRACE)?;
    assert_eq!(rt; whole.status, 0);
    for count in 0..FIRST_VERSION.len() {
        let prefix = FIRST_VERSION.get(..count).ok_or("no prefix")?;
        let feeds = prefix.bytes().filter(|byte| *byte == b'\n').count();
        let number = feeds.saturating_add(1);
        let line = format!(in alloc; "refused,config,line,{number}\n")?;
        refuses(&rt, alloc, prefix, line.as_str())?;
    }
    Ok(())
}

const NO_PACKET: &str = "cycle,x,sum\nplace,total,1\ndone,0,4\n";

const ONE_PACKET: &str = "cycle,x,sum\n4,5,5\nstate,total,0,5\nplace,total,1\ndone,1,5\n";

const TWO_PACKETS: &str = "cycle,x,sum\n4,5,5\n7,7,12\nstate,total,0,12\nplace,total,1\ndone,2,8\n";

// All proper prefixes of the trace that are traces, and some more.
const TAKEN_TRACES: [(&str, &str, &str); 8] = [
    (PROGRAM, "gap", NO_PACKET),
    (PROGRAM, "gap,x", NO_PACKET),
    (PROGRAM, "gap,x\n", NO_PACKET),
    (PROGRAM, "gap,x\n0,5", ONE_PACKET),
    (PROGRAM, "gap,x\n0,5\n", ONE_PACKET),
    (PROGRAM, "gap,x\n0,5\n2,7", TWO_PACKETS),
    (PROGRAM, "gap,x\r\n0,5\r\n2,7\r\n", TWO_PACKETS),
    (PROGRAM, "gap,x\n\"0\",\"5\"\n", ONE_PACKET),
];

// Its other prefixes, and one more.
const HOSTILE_TRACES: [(&str, &str, &str); 9] = [
    (PROGRAM, "", "refused,trace,no-header\n"),
    (PROGRAM, "g", "refused,trace,unknown-column,1\n"),
    (PROGRAM, "ga", "refused,trace,unknown-column,1\n"),
    (PROGRAM, "gap,", "refused,trace,unknown-column,2\n"),
    (PROGRAM, "gap,x\n0", "refused,trace,row-length,1\n"),
    (PROGRAM, "gap,x\n0,", "refused,trace,value,1,2\n"),
    (PROGRAM, "gap,x\n0,5\n2", "refused,trace,row-length,2\n"),
    (PROGRAM, "gap,x\n0,5\n2,", "refused,trace,value,2,2\n"),
    (PROGRAM, "gap,x\n-1,5\n", "refused,trace,value,1,1\n"),
];

#[test]
fn hostile_traces(rt: HostRuntime) -> Result<(), Fail> {
    for command in ["run raw-small p t", "exec c t"] {
        puts_each(&rt, rt.alloc(), command, 0, &TAKEN_TRACES)?;
        puts_each(&rt, rt.alloc(), command, 3, &HOSTILE_TRACES)?;
    }
    Ok(())
}

// The file `b` has bytes that are no text.
#[test]
fn trace_of_other_bytes(rt: HostRuntime) -> Result<(), Fail> {
    for command in ["run raw-small p b", "exec c b"] {
        let mut bytes = Seq::new(rt.alloc());
        for byte in b"gap,x\n\xff,\xff\n" {
            bytes.push(*byte)?;
        }
        let mut files = files_of(rt.alloc(), PROGRAM, TRACE)?;
        files.push((Name::of(rt.alloc(), b"b")?, bytes))?;
        let none = Vec::new(rt.alloc());
        let given = answer(rt.alloc(), command, files, none, Vec::new(rt.alloc()))?;
        assert_eq!(rt; given.status, 3);
        assert_eq!(rt;
            given.held.as_slice(),
            b"refused,trace,value,1,1\n".as_slice()
        );
    }
    Ok(())
}
