// What a source puts on the bus, and what reading it leaves behind.
ghost use Rattle.std.specs.Prelude.{◌≡◌};
ghost use Rattle.stages.specs.Bus.{bus_of, read_from};

use codes::Source;
use device::{Chip, Registers};

#[tactic(auto, unfolding(crate::specs::Bus::bus_of))]
pub fn bus_value<C: Chip>(r: Registers, trb: u16, source: Source, ram: &[u16], rom: &[u16]) -> u16
    ensures { result ≡ bus_of C.LARGE r trb source ram.now rom.now }
{
    match source {
        Source::NoneOrTrb => if C::LARGE { trb } else { 0 },
        Source::A => r.a,
        Source::B => r.b,
        Source::Tr => r.tr,
        Source::Dp => r.dp.0,
        Source::Rp => r.rp.0,
        Source::Ro => C::cell_value(device::cell_at(rom, r.rp.0)),
        Source::Sgn => if r.flags.a.s1 { 0x7fff } else { 0x8000 },
        Source::Dr => r.dr,
        Source::Drnf => r.dr,
        Source::Sr => r.sr,
        Source::Sim => r.si,
        Source::Sil => numbers::reverse16(r.si),
        Source::K => r.k,
        Source::L => r.l,
        Source::Mem => device::cell_at(ram, r.dp.0),
    }
}

// Reading DR sets RQM; SIM and SIL clear SIACK. The arms meet before the record is handed back, as in `load`.
#[tactic(auto, unfolding(crate::specs::Bus::read_from))]
pub fn read_from(r: Registers, source: Source) -> Registers
    ensures { result ≡ read_from r source }
{
    let mut q = r;
    match source {
        Source::Dr => q.sr = status::with_rqm(r.sr),
        Source::Sim | Source::Sil => q.siack = false,
        _ => {}
    }
    q
}
