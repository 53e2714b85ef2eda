use super::{CONFIG, PROGRAM, SHARED, TRACE, answered};
use std::alloc::Global;
use std::process::Abort;
use std::str;
use std::test::Fail;

// Programs, configurations for `raw-small` that do what they do with a container for each value, and the lines of the number
// of containers before and after.
const VALUES: [(&str, &str, &str, &str); 6] = [
    (PROGRAM, CONFIG, "\ncontainers,3\n", "\ncontainers,2\n"),
    (
        "struct P { int x; }; void f(struct P p) { p.x = ((p.x + 1) ^ 2) - 3; }",
        "banzai,1\ntarget,raw-small\nfield,x\ncontainers,4\nstage,1\nbin,c1,add,c0,#1\nstage,2\nbin,c2,xor,c1,#2\nstage,3\nbin,c3,sub,c2,#3\nstage,4\nout,c3\nend\n",
        "\ncontainers,4\n",
        "\ncontainers,2\n",
    ),
    (
        "struct P { int k; int v; int s; int t; }; int a[8]; int b[8]; void f(struct P p) { p.s = a[p.k]; a[p.k] = p.v; p.t = b[p.s]; b[p.s] = p.k; }",
        "banzai,1\ntarget,raw-small\nfield,k\nfield,v\nfield,s\nfield,t\narray,a,8,0\narray,b,8,0\ncontainers,6\nstage,1\natom,1\nslot,0,c0,c4,-,put,c1\nstage,2\natom,1\nslot,1,c4,c5,-,put,c0\nstage,3\nstage,4\nout,c0\nout,c1\nout,c4\nout,c5\nend\n",
        "\ncontainers,6\n",
        "\ncontainers,4\n",
    ),
    (
        "struct P { int x; int y; }; void f(struct P p) { p.y = hash1(p.x) % 100; p.x = p.y + 1; }",
        "banzai,1\ntarget,raw-small\nfield,x\nfield,y\ncontainers,4\nstage,1\nhash,c2,hash1,100,c0\nstage,2\nbin,c3,add,c2,#1\nstage,3\nstage,4\nout,c3\nout,c2\nend\n",
        "\ncontainers,4\n",
        "\ncontainers,2\n",
    ),
    (
        "struct P { int x; int y; }; void f(struct P p) { p.x = p.y; }",
        "banzai,1\ntarget,raw-small\nfield,x\nfield,y\ncontainers,2\nstage,1\nstage,2\nstage,3\nstage,4\nout,c1\nout,c1\nend\n",
        "\ncontainers,2\n",
        "\ncontainers,2\n",
    ),
    (
        "struct P { int x; int y; int z; }; void f(struct P p) { p.z = p.x > p.y ? p.x - p.y : p.y - p.x; }",
        "banzai,1\ntarget,raw-small\nfield,x\nfield,y\nfield,z\ncontainers,7\nstage,1\nbin,c3,gt,c0,c1\nbin,c4,sub,c0,c1\nbin,c5,sub,c1,c0\nstage,2\ncond,c6,c3,c4,c5\nstage,3\nstage,4\nout,c0\nout,c1\nout,c6\nend\n",
        "\ncontainers,7\n",
        "\ncontainers,6\n",
    ),
];

// `upgrade` of each configuration is what `compile` makes of its program, and `upgrade` of that is the same again.
fn shares_each(
    rt: &impl Abort,
    alloc: Global,
    rows: &[(&str, &str, &str, &str)],
) -> Result<(), Fail> {
    for (program, config, before, after) in rows {
        let compiled = answered(alloc, "compile raw-small p", program, TRACE)?;
        let once = answered(alloc, "upgrade p", config, TRACE)?;
        let text = str::from_utf8(once.held.as_slice()).map_err(|_| "no text")?;
        let again = answered(alloc, "upgrade p", text, TRACE)?;
        assert_eq!(rt;
            (compiled.status, once.status, again.status),
            (0, 0, 0),
            "for {program}"
        );
        assert_eq!(rt;
            compiled.held.as_slice(),
            once.held.as_slice(),
            "for {program}"
        );
        assert_eq!(rt;
            again.held.as_slice(),
            once.held.as_slice(),
            "for {program}"
        );
        assert!(rt;
            config.contains(before) && text.contains(after),
            "for {program}"
        );
    }
    Ok(())
}

#[test]
fn shared_containers(rt: HostRuntime) -> Result<(), Fail> {
    shares_each(&rt, rt.alloc(), &VALUES)
}

// What is no configuration is refused as `exec` refuses it.
fn refuses_each(rt: &impl Abort, alloc: Global, rows: &[(&str, &str)]) -> Result<(), Fail> {
    for (text, line) in rows {
        let given = answered(alloc, "upgrade p", text, TRACE)?;
        assert_eq!(rt; given.status, 3, "for {line}");
        assert_eq!(rt; given.held.as_slice(), line.as_bytes(), "for {line}");
    }
    Ok(())
}

const REFUSED: [(&str, &str); 3] = [
    ("", "refused,config,line,1\n"),
    (
        "banzai,2\ntarget,raw-tiny\nfield,x\ncontainers,1\nstage,1\nout,c0\nend\n",
        "refused,config,unknown-target\n",
    ),
    (
        "banzai,2\ntarget,raw-small\nfield,x\ncontainers,1\nstage,1\nout,c0\nend\n",
        "refused,config,depth,0,0\n",
    ),
];

#[test]
fn refused_upgrades(rt: HostRuntime) -> Result<(), Fail> {
    refuses_each(&rt, rt.alloc(), &REFUSED)
}

// With the shared container a register has one word less.
#[test]
fn watched_in_version_two(rt: HostRuntime) -> Result<(), Fail> {
    let report =
        "cycle,0\nreg,0,5,0\ncycle,1\nreg,0,7,0\nreg,1,5,5\ntouch,1,total,0\ncycle,2\nreg,1,7,12\nreg,2,5,5\ntouch,1,total,0\ncycle,3\nreg,2,7,12\nreg,3,5,5\ncycle,4\nout,5,5\nreg,3,7,12\ncycle,5\nout,7,12\ndone,2,6\n";
    let given = answered(rt.alloc(), "watch p t", SHARED, "gap,x\n0,5\n0,7\n")?;
    assert_eq!(rt; given.status, 0);
    assert_eq!(rt; given.held.as_slice(), report.as_bytes());
    Ok(())
}
