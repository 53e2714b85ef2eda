ghost use Rattle.std.specs.Prelude.{◌≡◌, ◌<◌, IfOk, length};

mod swaps;

use atom_traits::Raw;
use banzai_config::Config;
use banzai_machine::Machine;
use config_text::read_parts;
use dom_words::{FnvUnits, Packet};
use probe_taps::{Tap, Tapped};
use std::alloc::Global;
use std::test::Fail;

// The running sum, whose values have containers of their own.
const CONFIG: &[u8] =
    b"banzai,1\ntarget,raw-small\nfield,x\nfield,sum\narray,total,1,0\ncontainers,3\nstage,1\natom,1\nslot,0,#0,-,c2,add,c0\nstage,2\nstage,3\nstage,4\nout,c0\nout,c2\nend\n";

type Probed = Tapped<Raw<5>, 4, 4, 1>;

// A machine of two fields, with a tap before stage 2 and perhaps further ones, and the fields of the packet that left last.
#[derive(Drop)]
struct Bench {
    tapped: Probed,
    leaving: Packet,
    ghost some: { 0 < length tapped.taps.items },
    ghost fields: { length tapped.machine.config.fields ≡ 2 },
    ghost size: { length leaving ≡ 2 },
}

// A machine of the configuration with this text.
fn machine_of(alloc: Global, text: &[u8]) -> Result<Machine<Raw<5>, 4, 4, 1>, Fail>
    ensures fields { IfOk result (λ machine. length machine.config.fields ≡ 2) }
{
    if text.len() > 1000 {
        return Err("a long text".into());
    }
    let (_, parts) = read_parts(alloc, text).map_err(|_| "no text of a configuration")?;
    let config = Config::<Raw<5>>::checked::<4, 4, 1, true>(alloc, parts).map_err(
        |_| "no legal configuration",
    )?;
    if config.fields().len() != 2 {
        return Err("not two fields".into());
    }
    Ok(Machine::<Raw<5>, 4, 4, 1>::new(alloc, config)?)
}

// A machine of `CONFIG` under this tap, before its first cycle.
fn started(alloc: Global, tap: Box<dyn Tap>) -> Result<Bench, Fail> {
    let machine = machine_of(alloc, CONFIG)?;
    let leaving = Packet::zeros(alloc, 2)?;
    let mut tapped = Tapped::new(alloc, machine);
    match tapped.attach(2, tap) {
        Ok(_) => Ok(Bench { tapped, leaving }),
        Err((_, memory)) => Err(memory.into()),
    }
}

impl Bench {
    // Another tap in the place of the first, which is handed back.
    fn swap_first(&mut self, tap: Box<dyn Tap>) -> Box<dyn Tap> {
        self.tapped.swap(0, tap)
    }

    // One cycle, in which a packet with this first field enters, or nothing. Whether a packet left.
    fn step(&mut self, first: Option<u32>) -> bool {
        match first {
            Some(x) => {
                let fields = [x, 0];
                self.tapped
                    .cycle(&FnvUnits, Some(fields.as_slice()), &mut self.leaving)
            }
            None => self.tapped.cycle(&FnvUnits, None, &mut self.leaving),
        }
    }

    // The first tap's number.
    fn tell(&self) -> u64 {
        self.tapped.tell(0)
    }
}
