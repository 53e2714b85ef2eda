use super::{LATE, PLAN, PROGRAM, SHARED, TRACE, answered, puts_each, text_of};
use std::str;
use std::test::Fail;

const CODELETS: [(&str, &str, &str); 2] = [
    (PROGRAM, TRACE, "codelet,0,1,stateful\n"),
    (
        LATE,
        TRACE,
        "codelet,0,1,stateful\ncodelet,2,1,stateful\ncodelet,4,2,stateless,2\ncodelet,5,3,stateless,4\ncodelet,6,4,stateless,5\n",
    ),
];

const REFUSED_CODELETS: [(&str, &str, &str); 2] = [
    ("", TRACE, "refused,parse,unexpected,0\n"),
    (
        "struct P { int x; }; int s; void f(struct P p) { s = p.x - s; }",
        TRACE,
        "refused,outside,0\n",
    ),
];

#[test]
fn codelets(rt: HostRuntime) -> Result<(), Fail> {
    puts_each(&rt, rt.alloc(), "codelets raw-small p", 0, &CODELETS)?;
    puts_each(
        &rt,
        rt.alloc(),
        "codelets raw-small p",
        1,
        &REFUSED_CODELETS,
    )
}

const PLANNED: [(&str, &str, &str); 1] = [(PROGRAM, "codelet,0,1\n", SHARED)];

const REFUSED_PLANS: [(&str, &str, &str); 12] = [
    (
        LATE,
        "codelet,0,1\ncodelet,2,1\ncodelet,4,2\ncodelet,5,3\ncodelet,6,4\n",
        "refused,plan,wide,1,stateful\n",
    ),
    (
        LATE,
        "codelet,0,2\ncodelet,2,1\ncodelet,4,1\ncodelet,5,3\ncodelet,6,4\n",
        "refused,plan,early,4,2\n",
    ),
    (
        LATE,
        "codelet,0,1\ncodelet,2,1\ncodelet,4,3\ncodelet,5,3\ncodelet,6,4\n",
        "refused,plan,early,5,4\n",
    ),
    (
        LATE,
        "codelet,0,2\ncodelet,2,1\ncodelet,4,2\ncodelet,5,3\ncodelet,6,5\n",
        "refused,plan,line,5\n",
    ),
    (
        LATE,
        "codelet,0,2\ncodelet,2,1\ncodelet,4,2\ncodelet,5,3\n",
        "refused,plan,line,5\n",
    ),
    (
        LATE,
        "codelet,0,2\ncodelet,2,1\ncodelet,4,2\ncodelet,5,3\ncodelet,6,4",
        "refused,plan,line,5\n",
    ),
    (
        LATE,
        "codelet,0,2\ncodelet,2,1\ncodelet,4,2\ncodelet,5,3\ncodelet,6,4\n\n",
        "refused,plan,line,6\n",
    ),
    (
        LATE,
        "codelet,2,1\ncodelet,0,2\ncodelet,4,2\ncodelet,5,3\ncodelet,6,4\n",
        "refused,plan,line,1\n",
    ),
    (PROGRAM, "", "refused,plan,line,1\n"),
    (PROGRAM, "codelet,0,0\n", "refused,plan,line,1\n"),
    (PROGRAM, "codelet,0,01\n", "refused,plan,line,1\n"),
    (PROGRAM, "codelet,00,1\n", "refused,plan,line,1\n"),
];

#[test]
fn planned(rt: HostRuntime) -> Result<(), Fail> {
    let alloc = rt.alloc();
    puts_each(&rt, alloc, "planned raw-small p t", 0, &PLANNED)?;
    puts_each(&rt, alloc, "planned raw-small p t", 3, &REFUSED_PLANS)?;
    puts_each(&rt, alloc, "planned raw-small p t", 1, &REFUSED_CODELETS)?;
    for (count, line) in [
        (65536, "refused,plan,line,1\n"),
        (65537, "refused,limit,plan\n"),
    ] {
        let plan = text_of(alloc, "", " ", "", count)?;
        let given = answered(alloc, "planned raw-small p t", LATE, plan.as_str())?;
        assert_eq!(rt; given.status, 3);
        assert_eq!(rt; given.held.as_slice(), line.as_bytes());
    }
    Ok(())
}

// What `planned` puts can be clocked.
#[test]
fn planned_is_clocked(rt: HostRuntime) -> Result<(), Fail> {
    let alloc = rt.alloc();
    let refused = answered(alloc, "compile raw-small p", LATE, TRACE)?;
    assert_eq!(rt; refused.status, 1);
    assert_eq!(rt;
        refused.held.as_slice(),
        b"refused,full,6,stateful,1\n".as_slice()
    );
    let planned = answered(alloc, "planned raw-small p t", LATE, PLAN)?;
    let config = str::from_utf8(planned.held.as_slice()).map_err(|_| "no text")?;
    let given = answered(alloc, "exec p t", config, "gap,x\n0,5\n")?;
    assert_eq!(rt; given.status, 0);
    assert_eq!(rt;
        given.held.as_slice(),
        b"cycle,x,y\n4,5,5\nstate,a,0,1\nstate,b,0,5\nplace,a,2\nplace,b,1\ndone,1,5\n".as_slice()
    );
    Ok(())
}
