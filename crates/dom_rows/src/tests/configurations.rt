use super::{PROGRAM, TRACE, answered, text_of};
use std::alloc::Global;
use std::process::Abort;
use std::test::Fail;

// A program that each target takes: an array word is read, and another word put in its place.
const KEPT: &str =
    "struct P { int key; int val; int seen; }; int acc[64]; void f(struct P p) { p.seen = acc[p.key]; acc[p.key] = p.val; }";

const FLOWLET: &str = "#define NUM_FLOWLETS 8000
#define THRESH 5
#define NUM_HOPS 10
struct Packet { int sport; int dport; int arrival; int new_hop; int next_hop; int id; };
int last_time[NUM_FLOWLETS] = {0};
int saved_hop[NUM_FLOWLETS] = {0};
void flowlet(struct Packet pkt) {
  pkt.new_hop = hash3(pkt.sport, pkt.dport, pkt.arrival) % NUM_HOPS;
  pkt.id = hash2(pkt.sport, pkt.dport) % NUM_FLOWLETS;
  if (pkt.arrival - last_time[pkt.id] > THRESH) {
    saved_hop[pkt.id] = pkt.new_hop;
  }
  last_time[pkt.id] = pkt.arrival;
  pkt.next_hop = saved_hop[pkt.id];
}
";

const FLOWLET_ON_PRAW_MEDIUM: &str = "banzai,2
target,praw-medium
field,sport
field,dport
field,arrival
field,new_hop
field,next_hop
field,id
array,last_time,8000,0
array,saved_hop,8000,0
containers,7
stage,1
hash,c3,hash3,10,c0,c1,c2
hash,c4,hash2,8000,c0,c1
stage,2
atom,1
slot,0,c4,c5,-,put,c2
stage,3
bin,c6,sub,c2,c5
stage,4
bin,c5,gt,c6,#5
stage,5
atom,1
slot,1,c4,-,c6,if,eq,c5,#0,keep,put,c3
stage,6
stage,7
stage,8
stage,9
stage,10
stage,11
stage,12
out,c0
out,c1
out,c2
out,c3
out,c6
out,c4
end
";

// 17 operators that need no other.
const WIDE: &str =
    "struct P { int f0; int f1; int f2; int f3; int f4; int f5; int f6; int f7; int f8; int f9; int f10; int f11; int f12; int f13; int f14; int f15; int f16; int f17; }; void f(struct P p) { p.f0 = p.f17 ^ 1; p.f1 = p.f17 ^ 1; p.f2 = p.f17 ^ 1; p.f3 = p.f17 ^ 1; p.f4 = p.f17 ^ 1; p.f5 = p.f17 ^ 1; p.f6 = p.f17 ^ 1; p.f7 = p.f17 ^ 1; p.f8 = p.f17 ^ 1; p.f9 = p.f17 ^ 1; p.f10 = p.f17 ^ 1; p.f11 = p.f17 ^ 1; p.f12 = p.f17 ^ 1; p.f13 = p.f17 ^ 1; p.f14 = p.f17 ^ 1; p.f15 = p.f17 ^ 1; p.f16 = p.f17 ^ 1; }";

const FIVE: &str =
    "struct P { int x; }; int a; int b; int c; int d; int e; void f(struct P p) { a = a + 1; b = b + 1; c = c + 1; d = d + 1; e = e + 1; }";

const FRONT: &str = "struct P { int x; }; int s; void f(struct P pkt) { ";

// Each target has its name in the text, and so many stages.
#[test]
fn each_target(rt: HostRuntime) -> Result<(), Fail> {
    let alloc = rt.alloc();
    let templates = ["write", "raw", "praw", "ifelse", "sub", "nested", "pairs"];
    for template in templates {
        for (geometry, depth) in [("small", 4u32), ("medium", 12), ("large", 32)] {
            let command = format!(in alloc; "compile {template}-{geometry} p")?;
            let mut text = format!(in alloc; "banzai,2\ntarget,{template}-{geometry}\n")?;
            text.push_str("field,key\nfield,val\nfield,seen\narray,acc,64,0\ncontainers,3\n")?;
            text.push_str("stage,1\natom,1\nslot,0,c0,c2,-,put,c1\n")?;
            for stage in 2..=depth {
                text.push_str(format!(in alloc; "stage,{stage}\n")?.as_str())?;
            }
            text.push_str("out,c0\nout,c1\nout,c2\nend\n")?;
            let given = answered(alloc, command.as_str(), KEPT, TRACE)?;
            assert_eq!(rt; given.status, 0);
            assert_eq!(rt; given.held.as_slice(), text.as_bytes());
        }
    }
    Ok(())
}

// Each target has a configuration for the program of `selfrun`, whose one packet leaves behind its stages.
#[test]
fn drawn_on_each_target(rt: HostRuntime) -> Result<(), Fail> {
    let alloc = rt.alloc();
    let templates = ["write", "raw", "praw", "ifelse", "sub", "nested", "pairs"];
    for template in templates {
        let fold = if template == "write" {
            1_300_078
        } else {
            1_340_218
        };
        for (geometry, cycles) in [("small", 5), ("medium", 13), ("large", 33)] {
            let command = format!(in alloc; "selfrun {template}-{geometry} 7 1")?;
            let mut text = format!(in alloc; "selfrun,{template}-{geometry},7,1\npackets,1\n")?;
            let end = format!(in alloc; "cycles,{cycles}\nfold,{fold}\ntotal,40140\n")?;
            text.push_str(end.as_str())?;
            let given = answered(alloc, command.as_str(), KEPT, TRACE)?;
            assert_eq!(rt; given.status, 0);
            assert_eq!(rt; given.held.as_slice(), text.as_bytes());
        }
    }
    Ok(())
}

#[test]
fn hashes_and_forks(rt: HostRuntime) -> Result<(), Fail> {
    let given = answered(rt.alloc(), "compile praw-medium p", FLOWLET, TRACE)?;
    assert_eq!(rt; given.status, 0);
    assert_eq!(rt; given.held.as_slice(), FLOWLET_ON_PRAW_MEDIUM.as_bytes());
    Ok(())
}

// A row has a target, a program, and the line with which it is refused.
fn refuses(rt: &impl Abort, alloc: Global, rows: &[(&str, &str, &str)]) -> Result<(), Fail> {
    for (target, program, line) in rows {
        let command = format!(in alloc; "compile {target} p")?;
        let given = answered(alloc, command.as_str(), program, TRACE)?;
        assert_eq!(rt; given.status, 1, "for {line}");
        assert_eq!(rt; given.held.as_slice(), line.as_bytes(), "for {line}");
    }
    Ok(())
}

#[test]
fn refused_programs(rt: HostRuntime) -> Result<(), Fail> {
    let alloc = rt.alloc();
    let long = text_of(alloc, FRONT, "s = s + 1; ", "}", 511)?;
    let shorter = text_of(alloc, FRONT, "s = s + 1; ", "}", 510)?;
    let deep = text_of(alloc, FRONT, "pkt.x = pkt.x ^ 1; ", "}", 5)?;
    let spaces = text_of(alloc, "", " ", "", 65537)?;
    let rows = [
        ("raw-small", spaces.as_str(), "refused,limit,program\n"),
        ("raw-small", "@", "refused,lex,bad-byte,0\n"),
        ("raw-small", "", "refused,parse,unexpected,0\n"),
        (
            "raw-small",
            "struct P { int x; }; int s; void f(struct P pkt) { pkt.x = hash2(pkt.x); }",
            "refused,check,hash-args,59\n",
        ),
        ("raw-large", long.as_str(), "refused,statements,513\n"),
        ("raw-large", shorter.as_str(), "refused,outside,0\n"),
        ("raw-medium", FLOWLET, "refused,outside,5\n"),
        ("write-large", PROGRAM, "refused,outside,0\n"),
        ("praw-small", FLOWLET, "refused,deep,1,2,3,4,5\n"),
        ("pairs-small", deep.as_str(), "refused,deep,0,1,2,3,4\n"),
        ("raw-small", FIVE, "refused,full,8,stateful,1\n"),
        ("raw-small", WIDE, "refused,full,16,stateless,1\n"),
    ];
    refuses(&rt, alloc, &rows)
}
