ghost use Rattle.std.specs.Prelude.{◌≡◌, ◌<◌, ◌≤◌, All, IfSome, length};
ghost use Rattle.std.specs.Option.{option_map};
ghost use Rattle.dom_io.specs.Causes.{HasCause};
ghost use Rattle.dom_io.specs.Held.{Puts};
ghost use Rattle.dom_report.specs.RunReport.{array_names};
ghost use Rattle.dom_report.specs.WatchReport.{filled_lines, moment_lines, out_lines, register_lines, touch_lines};
ghost use Rattle.trace_text.specs.Lines.{joined};

use atom_traits::AtomTemplate;
use banzai_machine::{Machine, Touch};
use dom_io::{Sink, SinkFault};
use trace_text::Lines;

/// Puts the lines of the cycle that a machine has just had: its number, the packet that left, the registers that are filled
/// now, and the touches.
pub(crate) fn put_moment<
    T: AtomTemplate,
    const DEPTH: usize,
    const SL: usize,
    const SF: usize,
    S: Sink,
>(
    machine: &Machine<T, DEPTH, SL, SF>,
    number: u64,
    left: Option<&[u32]>,
    lines: &mut Lines,
    sink: &mut S,
) -> Result<(), SinkFault>
    requires left { IfSome left (λ words. length words.now ≤ lines.old.words) }
    requires containers { machine.now.config.containers ≤ lines.old.words }
    requires arrays { lines.old.arrays ≡ array_names machine.now.config }
    ensures bytes { Puts (S.held sink.old) (S.held sink.new) (joined (moment_lines (record { number = number; left = option_map (λ words. words.now) left.entry; machine = machine.now }))) result }
    ensures cause { HasCause (S.faults sink.old) (S.faults sink.new) result }
    ensures same { lines.new ≡ lines.old }
{
    let Ok(()) = lines.clock(sink, number) else {
        return Err(SinkFault);
    };
    let Ok(()) = put_out(left, lines, sink) else {
        return Err(SinkFault);
    };
    let Ok(()) = put_registers(machine, lines, sink) else {
        return Err(SinkFault);
    };
    put_touches(machine.touches(), lines, sink)
}

// The line of the packet that left, if one did.
fn put_out<S: Sink>(left: Option<&[u32]>, lines: &mut Lines, sink: &mut S) -> Result<(), SinkFault>
    requires { IfSome left (λ words. length words.now ≤ lines.old.words) }
    ensures bytes { Puts (S.held sink.old) (S.held sink.new) (joined (out_lines (option_map (λ words. words.now) left.entry))) result }
    ensures cause { HasCause (S.faults sink.old) (S.faults sink.new) result }
    ensures same { lines.new ≡ lines.old }
{
    match left {
        Some(words) => lines.out(sink, words),
        None => Ok(()),
    }
}

// The lines of the registers that are filled.
fn put_registers<T: AtomTemplate, const DEPTH: usize, const SL: usize, const SF: usize, S: Sink>(
    machine: &Machine<T, DEPTH, SL, SF>,
    lines: &mut Lines,
    sink: &mut S,
) -> Result<(), SinkFault>
    requires { machine.now.config.containers ≤ lines.old.words }
    ensures bytes { Puts (S.held sink.old) (S.held sink.new) (joined (register_lines 0 machine.now.row.registers)) result }
    ensures cause { HasCause (S.faults sink.old) (S.faults sink.new) result }
    ensures same { lines.new ≡ lines.old }
{
    let depth = machine.config().stages();
    for k in 0..depth {
        let Ok(()) = put_register(k as u32, machine.register(k), lines, sink) else {
            return Err(SinkFault);
        };
    }
    Ok(())
}

// The line of a register, if it is filled.
fn put_register<S: Sink>(
    k: u32,
    register: Option<&[u32]>,
    lines: &mut Lines,
    sink: &mut S,
) -> Result<(), SinkFault>
    requires { IfSome register (λ words. length words.now ≤ lines.old.words) }
    ensures bytes { Puts (S.held sink.old) (S.held sink.new) (joined (filled_lines k (option_map (λ words. words.now) register.entry))) result }
    ensures cause { HasCause (S.faults sink.old) (S.faults sink.new) result }
    ensures same { lines.new ≡ lines.old }
{
    match register {
        Some(words) => lines.reg(sink, k, words),
        None => Ok(()),
    }
}

// The lines of touches.
fn put_touches<S: Sink>(touches: &[Touch], lines: &mut Lines, sink: &mut S) -> Result<(), SinkFault>
    requires { All (λ touch. touch.array < length lines.old.arrays) touches.now }
    ensures bytes { Puts (S.held sink.old) (S.held sink.new) (joined (touch_lines lines.old.arrays touches.now)) result }
    ensures cause { HasCause (S.faults sink.old) (S.faults sink.new) result }
    ensures same { lines.new ≡ lines.old }
{
    for touch in touches {
        let array = touch.array as usize;
        let Ok(()) = lines.touch(sink, touch.stage, array, touch.index) else {
            return Err(SinkFault);
        };
    }
    Ok(())
}
