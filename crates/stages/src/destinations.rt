// Where the bus goes.
ghost use Rattle.std.specs.Prelude.{◌≡◌, set};
ghost use Rattle.stages.specs.Destinations.{klm_address, loaded, trb_loaded, ram_loaded};

use codes::Destination;
use device::{Chip, RamPointer, Registers, RomPointer};

// DP with bit 6 set.
fn klm_address(dp: RamPointer) -> u16
    ensures { result ≡ (klm_address dp).0 }
{
    dp.0 / 0x80 % 0x200 * 0x80 + 0x40 + dp.0 % 0x40
}

// The arms meet before the record is handed back: handed back in each, it is copied in each.
#[tactic(auto, unfolding(crate::specs::Destinations::loaded, crate::specs::Destinations::ram_loaded))]
pub fn load<C: Chip>(
    r: Registers,
    destination: Destination,
    bus: u16,
    ram: &mut [u16],
    rom: &[u16],
) -> Registers
    ensures { (result ≡ loaded C.LARGE r.dp r.rp r destination bus ram.old rom.now) × (ram.new ≡ ram_loaded r.dp destination bus ram.old) }
{
    let mut q = r;
    match destination {
        Destination::None | Destination::NoneOrTrb => {}
        Destination::A => q.a = bus,
        Destination::B => q.b = bus,
        Destination::Tr => q.tr = bus,
        Destination::Dp => q.dp = RamPointer::of_bus::<C>(bus),
        Destination::Rp => q.rp = RomPointer::of_bus::<C>(bus),
        Destination::Dr => {
            q.dr = bus;
            q.sr = status::with_rqm(r.sr);
        }
        Destination::Sr => q.sr = status::status_loaded(r.sr, bus),
        Destination::Sol => {
            q.so = numbers::reverse16(bus);
            q.sorq = true;
            q.soack = false;
        }
        Destination::Som => {
            q.so = bus;
            q.sorq = true;
            q.soack = false;
        }
        Destination::K => q.k = bus,
        Destination::Klr => {
            q.k = bus;
            q.l = C::cell_value(device::cell_at(rom, r.rp.0));
        }
        Destination::Klm => {
            q.k = device::cell_at(ram, klm_address(r.dp));
            q.l = bus;
        }
        Destination::L => q.l = bus,
        Destination::Mem => store(ram, r.dp, bus),
    }
    q
}

// TRB after a word with this DST.
pub fn load_trb<C: Chip>(trb: u16, dst: u32, bus: u16) -> u16
    ensures { result ≡ trb_loaded C.LARGE trb dst bus }
{
    if C::LARGE & (dst == 14) { bus } else { trb }
}

// RAM at DP; nothing beyond its end.
fn store(ram: &mut [u16], dp: RamPointer, bus: u16)
    ensures { ram.new ≡ set ram.old dp.0 bus }
{
    let at = dp.0 as usize;
    if at < ram.len() {
        ram[at] = bus;
    }
}
