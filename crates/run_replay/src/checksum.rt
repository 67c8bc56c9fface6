/// The polynomial of CRC-32, its lowest power first.
const POLYNOMIAL: u32 = 0xEDB8_8320;

/// The CRC-32 of the octets so far, as Ethernet has it, but for the last inversion.
#[derive(Clone, Copy)]
pub struct Checksum {
    rest: u32,
}

// The rest behind one bit more.
fn behind_bit(rest: u32) -> u32 {
    if rest % 2 == 1 {
        (rest >> 1) ^ POLYNOMIAL
    } else {
        rest >> 1
    }
}

fn behind_octet(rest: u32, octet: u8) -> u32 {
    let mut rest = rest ^ octet as u32;
    for _ in 0..8 {
        rest = behind_bit(rest);
    }
    rest
}

impl Checksum {
    /// Of no octet.
    pub fn new() -> Checksum {
        Checksum { rest: u32::MAX }
    }

    /// Of these octets besides.
    pub fn add(&mut self, octets: &[u8]) {
        for octet in octets {
            self.rest = behind_octet(self.rest, *octet);
        }
    }

    pub fn value(&self) -> u32 {
        !self.rest
    }
}
