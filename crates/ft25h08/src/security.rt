// The four security registers of 256 bytes, at security addresses 000 to 3FF.
ghost use Rattle.std.specs.Prelude.{◌≡◌, ℕ, ◌*◌};
ghost use Rattle.cells.specs.Bytes.{counted, changed};
ghost use Rattle.cells.specs.Changes.{programmed, erased, cut_while_programming, cut_while_erasing};
ghost use Rattle.ft25h08.specs.Registers.{security_of, security_byte};

use crate::register::Register;

/// All four, the first at security address 000.
#[derive(Drop)]
pub struct Security {
    registers: [Register; 4],
}

impl Security {
    /// A newborn chip's: all FF.
    pub(crate) fn new() -> Security
        ensures { security_of result ≡ counted (λ _. 255) 1024 }
    {
        Security {
            registers: std::array::from_fn(|_| Register::new()),
        }
    }

    /// The byte at a security address, where there is one.
    pub(crate) fn byte(&self, at: usize) -> Option<u8>
        ensures { result ≡ security_byte self.now at }
    {
        if at < 1024 {
            Some(self.registers[at / 256].bytes[at % 256])
        } else {
            None
        }
    }

    /// All bytes, in the order of their addresses.
    pub(crate) fn bytes(&self) -> [u8; 1024]
        ensures { result ≡ security_of self.now }
    {
        let mut bytes = [0; 1024];
        for (r, register) in self.registers.iter().enumerate() {
            bytes[r * 256..r * 256 + 256].copy_from_slice(&register.bytes);
        }
        bytes
    }

    /// ANDs the latch into one register; there are four.
    pub(crate) fn program(&mut self, register: usize, latch: &[u8; 256])
        ensures { security_of self.new ≡ changed (register * 256) 256 (programmed latch.now) (security_of self.old) }
    {
        if register < 4 {
            self.registers[register].program(latch);
        }
    }

    /// Makes every byte FF.
    pub(crate) fn erase(&mut self)
        ensures { security_of self.new ≡ changed 0 1024 erased (security_of self.old) }
    {
        for register in self.registers.iter_mut() {
            register.erase();
        }
    }

    /// The power fails during the program of one register.
    pub(crate) fn cut_program(&mut self, register: usize, latch: &[u8; 256], junk: &[u8])
        ensures { security_of self.new ≡ changed (register * 256) 256 (cut_while_programming latch.now junk.now) (security_of self.old) }
    {
        if register < 4 {
            self.registers[register].cut_program(register as u32 * 256, latch, junk);
        }
    }

    /// The power fails during the erase.
    pub(crate) fn cut_erase(&mut self, junk: &[u8])
        ensures { security_of self.new ≡ changed 0 1024 (cut_while_erasing junk.now) (security_of self.old) }
    {
        for (r, register) in self.registers.iter_mut().enumerate() {
            register.cut_erase(r as u32 * 256, junk);
        }
    }
}
