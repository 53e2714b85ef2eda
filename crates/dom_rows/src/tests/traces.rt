use dom_words::{Name, Names, Packet};
use std::alloc::Global;
use std::process::Abort;
use std::test::Fail;
use trace_text::{TraceFault, read_trace};

const REFUSED: [(&[u8], TraceFault); 10] = [
    (b"", TraceFault::NoHeader),
    (b"x\n", TraceFault::UnknownColumn(1)),
    (b"gap,y\n", TraceFault::UnknownColumn(2)),
    (b"gap,x,sum,x\n", TraceFault::ColumnTwice(4)),
    (b"gap,x\n0,5\n0\n", TraceFault::RowLength(2)),
    (b"gap,x\n0,5,6\n", TraceFault::RowLength(1)),
    (b"gap,x\n0,4294967296\n", TraceFault::BadValue(1, 2)),
    (b"gap,x\n-1,y\n", TraceFault::BadValue(1, 1)),
    (b"gap\n1999996\n", TraceFault::TooManyCycles(2_000_002)),
    (b"gap\n1999994\n1\n", TraceFault::TooManyCycles(2_000_002)),
];

fn refuses(
    rt: &impl Abort,
    alloc: Global,
    fields: &Names,
    rows: &[(&[u8], TraceFault)],
) -> Result<(), Fail> {
    for (text, fault) in rows {
        assert!(rt; text.len() <= 16_777_216);
        let answer = read_trace(alloc, text, fields, 5);
        assert_eq!(rt; answer.err(), Some(*fault));
    }
    Ok(())
}

#[test]
fn traces(rt: HostRuntime) -> Result<(), Fail> {
    let mut fields = Names::new(rt.alloc());
    fields.add(Name::of(rt.alloc(), b"x")?)?;
    fields.add(Name::of(rt.alloc(), b"sum")?)?;
    let trace = read_trace(rt.alloc(), b"gap,x\n0,5\n2,7\n", &fields, 5)?;
    assert_eq!(rt; trace.packets(), 2);
    for (k, gap, words) in [(0, 0, [5, 0]), (1, 2, [7, 0])] {
        let mut packet = Packet::zeros(rt.alloc(), 2)?;
        assert!(rt; k < trace.packets());
        trace.fill(k, &mut packet);
        assert_eq!(rt; trace.gap(k), gap);
        assert_eq!(rt; packet.words(), words.as_slice());
    }
    refuses(&rt, rt.alloc(), &fields, &REFUSED)
}
