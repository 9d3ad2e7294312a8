// The check of a packet (scope paper, section Packet): a register of 16 bits, from 0, over the payload and then ETB.
// Each byte's highest bit meets the register first; each bit costs one shift to the left, a mask and an exclusive or.
#![tactic(auto)]

ghost use Rattle.std.specs.Prelude.{◌≡◌, false, ◌∷◌, []};
ghost use Rattle.crc16.specs.Crc.{bits, check};
ghost use Rattle.crc16.specs.Register.{fed, stepped};

// The polynomial without its leading term, x^16, which is the bit that leaves the register.
const POLYNOMIAL: u16 = 0x1021;

// The byte that ends a packet's data. It counts in the check.
const ETB: u8 = 0x17;

// The register after one more bit that is 0.
fn one_bit(register: u16) -> u16
    ensures { bits 16 result ≡ fed (bits 16 register) (false ∷ []) }
{
    if register & 0x8000 != 0 {
        ((register & 0x7fff) << 1) ^ POLYNOMIAL
    } else {
        (register & 0x7fff) << 1
    }
}

// The register after the eight bits of `byte`: they meet the upper half at once, and eight zeros push them out bit by bit.
fn one_byte(register: u16, byte: u8) -> u16
    ensures { bits 16 result ≡ fed (bits 16 register) (bits 8 byte) }
{
    let mut r = register ^ ((byte as u16) << 8);
    for _ in 0..8usize {
        r = one_bit(r);
    }
    r
}

// The register after one more byte, for a caller that meets the bytes one at a time: from 0, over a payload and then ETB, it comes
// to the payload's check.
pub fn step(register: u16, byte: u8) -> u16
    ensures { result ≡ stepped register byte }
{
    one_byte(register, byte)
}

// The check of `payload`.
pub fn check_of(payload: &[u8]) -> u16
    ensures { result ≡ check payload.now }
{
    let text = payload
        .iter()
        .fold(0, |register, &byte| step(register, byte));
    step(text, ETB)
}
