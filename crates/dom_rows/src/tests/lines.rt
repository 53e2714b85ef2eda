ghost use Rattle.std.specs.Prelude.{◌≡◌, ◌≤◌, length, IfOk};

use dom_io::{MemSink, Sink, SinkFault};
use dom_words::{Array, Memory, Name, Names, Seq};
use std::alloc::Global;
use std::test::Fail;
use trace_text::Lines;

// The lines of two fields and one array.
fn sample_lines(alloc: Global) -> Result<Lines, Memory>
    ensures arrays { IfOk result (λ lines. length lines.arrays ≡ 1) }
    ensures words { IfOk result (λ lines. 2 ≤ lines.words) }
{
    let mut fields = Names::new(alloc);
    fields.add(Name::of(alloc, b"x")?)?;
    fields.add(Name::of(alloc, b"sum")?)?;
    let mut arrays = Seq::new(alloc);
    let name = Name::of(alloc, b"total")?;
    arrays.push(Array {
        name,
        length: 1,
        init: 0,
    })?;
    Lines::new(alloc, &fields, &arrays, 2)
}

fn put_packets<S: Sink>(lines: &mut Lines, sink: &mut S) -> Result<(), SinkFault>
    requires { 2 ≤ lines.old.words }
    ensures { lines.new ≡ lines.old }
{
    lines.head(sink, "cycle")?;
    lines.packet(sink, 4, &[5, 5])?;
    lines.packet(sink, 7, &[7, 4294967284])
}

fn put_end<S: Sink>(lines: &mut Lines, sink: &mut S) -> Result<(), SinkFault>
    requires { length lines.old.arrays ≡ 1 }
{
    lines.state(sink, 0, 0, 12)?;
    lines.place(sink, 0, 1)?;
    lines.done(sink, 2, Some(8))?;
    lines.done(sink, 2, None)
}

// The sink's fourth put takes two bytes and fails, and the lines go on after it.
#[test]
fn lines_of_a_report(rt: HostRuntime) -> Result<(), Fail> {
    let mut lines = sample_lines(rt.alloc())?;
    let failing = vec![in rt.alloc(); (4, 2)]?;
    let mut sink = MemSink::new(rt.alloc(), 100, failing)?;
    put_packets(&mut lines, &mut sink)?;
    assert!(rt; lines.place(&mut sink, 0, 1).is_err());
    put_end(&mut lines, &mut sink)?;
    let report = b"cycle,x,sum
4,5,5
7,7,-12
plstate,total,0,12
place,total,1
done,2,8
done,2
";
    assert_eq!(rt; sink.held(), report.as_slice());
    Ok(())
}
