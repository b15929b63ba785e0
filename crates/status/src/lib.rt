// SR: its bits, and how it is loaded. Knows no other register.
#![tactic(auto)]

ghost use Rattle.std.specs.Prelude.{◌≡◌, ◌+◌, ◌*◌, ◌/◌, ◌%◌, ◌^◌, ◌<◌, ◌==◌};
ghost use Rattle.status.specs.Status as spec;

// The bit at a place, 0 the lowest.
fn bit<const PLACE: u32>(sr: u16) -> bool
    requires { PLACE < 16 }
    ensures { result ≡ (sr / 2 ^ PLACE % 2 == 1) }
{
    (sr >> PLACE) & 1 == 1
}

#[tactic(auto, using(crate::proofs::Masks::set))]
fn with_bit<const PLACE: u32>(sr: u16) -> u16
    requires { PLACE < 16 }
    ensures { result + sr / 2 ^ PLACE % 2 * 2 ^ PLACE ≡ sr + 2 ^ PLACE }
{
    sr | (1 << PLACE)
}

#[tactic(auto, using(crate::proofs::Masks::cleared))]
fn without_bit<const PLACE: u32>(sr: u16) -> u16
    requires { PLACE < 16 }
    ensures { result + sr / 2 ^ PLACE % 2 * 2 ^ PLACE ≡ sr }
{
    sr & !(1 << PLACE)
}

// DRS: the low byte of a 16-bit transfer has gone.
pub fn drs(sr: u16) -> bool
    ensures { result ≡ spec.drs sr }
{
    bit::<12>(sr)
}

// DRC: transfers have 8 bits.
pub fn drc(sr: u16) -> bool
    ensures { result ≡ spec.drc sr }
{
    bit::<10>(sr)
}

// EI: interrupts are accepted.
pub fn ei(sr: u16) -> bool
    ensures { result ≡ spec.ei sr }
{
    bit::<7>(sr)
}

// RQM: the chip asks for a transfer.
pub fn rqm(sr: u16) -> bool
    ensures { result ≡ spec.rqm sr }
{
    bit::<15>(sr)
}

pub fn with_rqm(sr: u16) -> u16
    ensures { result ≡ spec.with_rqm sr }
{
    with_bit::<15>(sr)
}

pub fn without_rqm(sr: u16) -> u16
    ensures { result ≡ spec.without_rqm sr }
{
    without_bit::<15>(sr)
}

pub fn with_drs(sr: u16) -> u16
    ensures { result ≡ spec.with_drs sr }
{
    with_bit::<12>(sr)
}

pub fn without_drs(sr: u16) -> u16
    ensures { result ≡ spec.without_drs sr }
{
    without_bit::<12>(sr)
}

pub fn without_ei(sr: u16) -> u16
    ensures { result ≡ spec.without_ei sr }
{
    without_bit::<7>(sr)
}

// The bits that a load of SR keeps: 15, 12 and 6 to 2.
const KEPT: u16 = 0x907c;

// SR loaded from the bus.
#[tactic(auto, using(crate::proofs::Masks::loaded))]
pub fn status_loaded(sr: u16, bus: u16) -> u16
    ensures { result ≡ spec.status_loaded sr bus }
{
    (sr & KEPT) | (bus & !KEPT)
}
