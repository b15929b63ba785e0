// The host's port.
ghost use Rattle.std.specs.Prelude.{◌≡◌};
ghost use Rattle.events.specs.Host as spec;

use device::Registers;

// Whether the next access is DR's high byte.
fn high_byte(sr: u16) -> bool
    ensures { result ≡ spec.high_byte sr }
{
    !status::drc(sr) & status::drs(sr)
}

// SR after an access.
#[tactic(auto, unfolding(crate::specs::Host::status_accessed))]
fn status_accessed(sr: u16) -> u16
    ensures { result ≡ spec.status_accessed sr }
{
    let one_byte = status::without_rqm(sr);
    let high_byte = status::without_drs(one_byte);
    let low_byte = status::with_drs(sr);
    if status::drc(sr) {
        return one_byte;
    }
    if status::drs(sr) {
        return high_byte;
    }
    low_byte
}

#[tactic(auto, unfolding(crate::specs::Host::byte_read))]
pub fn byte_read(r: Registers) -> u16
    ensures { result ≡ spec.byte_read r }
{
    if high_byte(r.sr) {
        return r.dr / 0x100 % 0x100;
    }
    r.dr % 0x100
}

// DR with a byte written.
#[tactic(auto, unfolding(crate::specs::Host::dr_written))]
fn dr_written(r: Registers, byte: u8) -> u16
    ensures { result ≡ spec.dr_written r byte }
{
    if high_byte(r.sr) {
        return (byte as u16) * 0x100 + r.dr % 0x100;
    }
    r.dr / 0x100 % 0x100 * 0x100 + (byte as u16)
}

pub fn host_read(r: Registers) -> Registers
    ensures { result ≡ spec.host_read r }
{
    Registers {
        sr: status_accessed(r.sr),
        ..r
    }
}

pub fn host_write(r: Registers, byte: u8) -> Registers
    ensures { result ≡ spec.host_written r byte }
{
    Registers {
        dr: dr_written(r, byte),
        sr: status_accessed(r.sr),
        ..r
    }
}
