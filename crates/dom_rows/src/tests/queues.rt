use super::{EVENTS, TRACE, answered, puts_each, text_of};
use std::test::Fail;

// Traces of the configuration, events and what they give.
const ELASTIC: [(&str, &str, &str); 4] = [
    (
        "gap,x\n0,5\n0,7\n",
        EVENTS,
        "event,x,sum\nwait,3\n9,5,5\nstate,total,0,12\nheld,1\ndone,2,1\n",
    ),
    (
        "gap,x\n0,1\n0,2\n0,3\n0,4\n0,5\n",
        "enter\nenter\nenter\nenter\nenter\n",
        "event,x,sum\nwait,5\nheld,4\ndone,4,0\n",
    ),
    (
        "gap,x\n7,5\n",
        "leave\nenter\nenter\n",
        "event,x,sum\nwait,1\nwait,3\nheld,1\ndone,1,0\n",
    ),
    ("gap,x\n", "", "event,x,sum\nheld,0\ndone,0,0\n"),
];

#[test]
fn elastic_reports(rt: HostRuntime) -> Result<(), Fail> {
    puts_each(&rt, rt.alloc(), "elastic c p t", 0, &ELASTIC)
}

const REFUSED_EVENTS: [(&str, &str, &str); 8] = [
    (TRACE, "fire,5\n", "refused,events,1\n"),
    (TRACE, "fire,0\n", "refused,events,1\n"),
    (TRACE, "enter\nfire,01\n", "refused,events,2\n"),
    (TRACE, "enter\nleave", "refused,events,2\n"),
    (TRACE, "enter\n\nleave\n", "refused,events,2\n"),
    (TRACE, "enter\r\n", "refused,events,1\n"),
    (TRACE, "fire\n", "refused,events,1\n"),
    ("no trace", "fire,5\n", "refused,trace,unknown-column,1\n"),
];

#[test]
fn refused_events(rt: HostRuntime) -> Result<(), Fail> {
    let alloc = rt.alloc();
    puts_each(&rt, alloc, "elastic c p t", 3, &REFUSED_EVENTS)?;
    let block = text_of(alloc, "", " ", "", 4096)?;
    for (last, line) in [("", "refused,events,1\n"), (" ", "refused,limit,events\n")] {
        let events = text_of(alloc, "", block.as_str(), last, 4096)?;
        let given = answered(alloc, "elastic c p t", TRACE, events.as_str())?;
        assert_eq!(rt; given.status, 3);
        assert_eq!(rt; given.held.as_slice(), line.as_bytes());
    }
    Ok(())
}

// Subtracts the rank of a packet from 10.
const RANKS: &str =
    "banzai,2\ntarget,raw-small\nfield,r\nfield,n\ncontainers,3\nstage,1\nbin,c2,sub,#10,c0\nstage,2\nstage,3\nstage,4\nout,c2\nout,c1\nend\n";

const RANKED: &str = "gap,r,n\n0,1,1\n0,3,2\n0,3,3\n0,2,4\n";

const ROOM_FOR_ALL: [(&str, &str, &str); 2] = [
    (
        RANKS,
        RANKED,
        "cycle,r,n\n7,7,2\n11,7,3\n15,8,4\n19,9,1\ndone,4,20\n",
    ),
    (RANKS, "gap,r\n", "cycle,r,n\ndone,0,4\n"),
];

const ROOM_FOR_TWO: [(&str, &str, &str); 1] = [(
    RANKS,
    RANKED,
    "cycle,r,n\ndrop,6,7,3\ndrop,7,8,4\n7,7,2\n11,9,1\ndone,2,12\n",
)];

const ROOM_FOR_ONE: [(&str, &str, &str); 2] = [
    (
        RANKS,
        RANKED,
        "cycle,r,n\n4,9,1\n5,7,2\n6,7,3\n7,8,4\ndone,4,8\n",
    ),
    (
        RANKS,
        "gap,r\n0,11\n0,-2147483648\n",
        "cycle,r,n\n4,-1,0\n5,-2147483638,0\ndone,2,6\n",
    ),
];

const REFUSED_RANKS: [(&str, &str, &str); 3] = [
    (RANKS, RANKED, "refused,rank\n"),
    (RANKS, "no trace", "refused,rank\n"),
    ("no config", RANKED, "refused,config,line,1\n"),
];

#[test]
fn schedule_reports(rt: HostRuntime) -> Result<(), Fail> {
    puts_each(&rt, rt.alloc(), "schedule p t r 8 4", 0, &ROOM_FOR_ALL)?;
    puts_each(&rt, rt.alloc(), "schedule p t r 2 4", 0, &ROOM_FOR_TWO)?;
    puts_each(&rt, rt.alloc(), "schedule p t r 1 1", 0, &ROOM_FOR_ONE)?;
    puts_each(&rt, rt.alloc(), "schedule p t q 8 4", 3, &REFUSED_RANKS)
}
