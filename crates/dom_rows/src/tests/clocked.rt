use super::{CONFIG, PROGRAM, ROOM, TRACE, answered, files_of, puts_each, text_of, words_of};
use dom_io::{MemShelf, MemSink};
use dom_shell::domino;
use dom_words::{HashName, HashUnits};
use std::alloc::Global;
use std::cell::Cell;
use std::process::Abort;
use std::str;
use std::test::Fail;

const REFUSED_CONFIGS: [(&str, &str, &str); 15] = [
    ("banzai,1\n", "banzai,3\n", "refused,config,line,1\n"),
    ("stage,3\n", "stage,5\n", "refused,config,line,11\n"),
    ("end\n", "en", "refused,config,line,15\n"),
    ("raw-small", "raw-tiny", "refused,config,unknown-target\n"),
    ("stage,4\n", "", "refused,config,depth,0,0\n"),
    (
        "stage,2\n",
        "atom,1\nslot,0,#0,-,-,keep\nstage,2\n",
        "refused,config,width,1,2\n",
    ),
    (
        "containers,3",
        "containers,1",
        "refused,config,bad-number,0,0\n",
    ),
    ("slot,0", "slot,1", "refused,config,bad-number,1,1\n"),
    (
        "containers,3\nstage,1\n",
        "containers,4\nstage,1\nbin,c3,mul,c0,c0\n",
        "refused,config,mul-operator,1,1\n",
    ),
    ("add,c0", "add,#16", "refused,config,wide-constant,1,1\n"),
    (
        "add,c0",
        "if,lt,c0,s0,keep,put,c0",
        "refused,config,pattern,1,1\n",
    ),
    (
        "stage,2\n",
        "stage,2\natom,1\nslot,0,#0,-,-,keep\n",
        "refused,config,array-twice,2,1\n",
    ),
    (
        "containers,3\nstage,1\n",
        "containers,4\nstage,1\nbin,c3,add,c0,c2\n",
        "refused,config,read-before-write,1,1\n",
    ),
    (
        "-,c2,add",
        "-,-,add",
        "refused,config,read-before-write,5,2\n",
    ),
    (
        "-,c2,add",
        "-,c1,add",
        "refused,config,container-twice,1,1\n",
    ),
];

// A row has a part of the configuration, what stands in its place, and the refusal.
fn refuses_configs(
    rt: &impl Abort,
    alloc: Global,
    rows: &[(&str, &str, &str)],
) -> Result<(), Fail> {
    for (old, new, line) in rows {
        let (before, after) = CONFIG.split_once(old).ok_or("no part")?;
        let text = text_of(alloc, before, new, after, 1)?;
        let given = answered(alloc, "exec p t", text.as_str(), "no trace")?;
        assert_eq!(rt; given.status, 3, "for {line}");
        assert_eq!(rt; given.held.as_slice(), line.as_bytes(), "for {line}");
    }
    Ok(())
}

#[test]
fn refused_configs(rt: HostRuntime) -> Result<(), Fail> {
    refuses_configs(&rt, rt.alloc(), &REFUSED_CONFIGS)
}

#[test]
fn configs_of_spaces(rt: HostRuntime) -> Result<(), Fail> {
    let alloc = rt.alloc();
    for (count, line) in [
        (0, "refused,config,line,1\n"),
        (1_048_576, "refused,config,line,1\n"),
        (1_048_577, "refused,limit,config\n"),
    ] {
        let text = text_of(alloc, "", " ", "", count)?;
        let given = answered(alloc, "exec p t", text.as_str(), "no trace")?;
        assert_eq!(rt; given.status, 3);
        assert_eq!(rt; given.held.as_slice(), line.as_bytes());
    }
    Ok(())
}

// Which call came first, if one did: 1 for `hash1` of 7, and 2 for `hash1b`.
#[derive(Drop)]
struct Noted {
    first: Cell<u8>,
}

impl HashUnits for Noted {
    ghost use Rattle.std.proofs.Common.{arith};

    ghost meaning = { λ _ unit args. 0 };

    ghost is_small = { λ _ unit args. Prim.omega arith };

    fn apply(&self, unit: HashName, args: &[u32]) -> u32 {
        if self.first.get() == 0 {
            if unit.letter == 0 && args.contains(&7) {
                self.first.set(1);
            }
            if unit.letter == 2 {
                self.first.set(2);
            }
        }
        0
    }
}

const CHAIN: &str =
    "struct P { int x; int a; int b; int c; }; void f(struct P pkt) { pkt.a = hash1(pkt.x); pkt.b = hash1a(pkt.a); pkt.c = hash1b(pkt.b); }";

// Two packets are in the pipeline together: the second one is in its first stage before the first one is in its third. In a
// serial run it comes later.
#[test]
fn packets_in_flight(rt: HostRuntime) -> Result<(), Fail> {
    let alloc = rt.alloc();
    let compiled = answered(alloc, "compile raw-small p", CHAIN, TRACE)?;
    let config = str::from_utf8(compiled.held.as_slice()).map_err(|_| "no text")?;
    let rows = [
        ("run raw-small p t", CHAIN, 1),
        ("exec p t", config, 1),
        ("serial p t", CHAIN, 2),
    ];
    for (command, program, first) in rows {
        let words = words_of(alloc, command)?;
        let files = files_of(alloc, program, "gap,x\n0,5\n0,7\n")?;
        let mut shelf = MemShelf::new(alloc, files, Vec::new(alloc));
        let mut sink = MemSink::new(alloc, ROOM, Vec::new(alloc))?;
        let hash = Noted {
            first: Cell::new(0),
        };
        let status = domino(
            alloc,
            words.as_slice(),
            &mut shelf,
            &mut sink,
            &hash,
            Vec::new(alloc),
        );
        assert_eq!(rt; status, 0);
        assert_eq!(rt; hash.first.get(), first);
    }
    Ok(())
}

// Traces over the configuration, and what `watch` puts of it.
const WATCHED: [(&str, &str, &str); 2] = [
    (
        PROGRAM,
        "gap,x\n0,5\n0,7\n",
        "cycle,0\nreg,0,5,0,0\ncycle,1\nreg,0,7,0,0\nreg,1,5,0,5\ntouch,1,total,0\ncycle,2\nreg,1,7,0,12\nreg,2,5,0,5\ntouch,1,total,0\ncycle,3\nreg,2,7,0,12\nreg,3,5,0,5\ncycle,4\nout,5,5\nreg,3,7,0,12\ncycle,5\nout,7,12\ndone,2,6\n",
    ),
    (
        PROGRAM,
        "gap,x\n0,5\n3,7\n",
        "cycle,0\nreg,0,5,0,0\ncycle,1\nreg,1,5,0,5\ntouch,1,total,0\ncycle,2\nreg,2,5,0,5\ncycle,3\nreg,3,5,0,5\ncycle,4\nout,5,5\nreg,0,7,0,0\ncycle,5\nreg,1,7,0,12\ntouch,1,total,0\ncycle,6\nreg,2,7,0,12\ncycle,7\nreg,3,7,0,12\ncycle,8\nout,7,12\ndone,2,9\n",
    ),
];

#[test]
fn watched(rt: HostRuntime) -> Result<(), Fail> {
    puts_each(&rt, rt.alloc(), "watch c t", 0, &WATCHED)
}
