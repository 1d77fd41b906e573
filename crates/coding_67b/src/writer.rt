ghost use Rattle.std.specs.Prelude.{◌≡◌, ◌↔◌, ◌+◌, ◌-◌, ◌^◌, ◌<◌, ◌≤◌, List, [], ◌++◌, true, false, length, replicate, IsNone, IfSome, IfNone};
ghost use Rattle.lk_base.specs.Checksum.{bits_of};

use lane_model::CODE_BITS;
use std::marker::Model;

/// Bits on their way into bytes. It is seen as the list of the bits that wait, the first of them first.
#[derive(Debug, Drop)]
pub struct BitWriter {
    /// The bits that wait are its lowest `count` bits, the first of them highest.
    bits: u128,
    count: u32,
}

impl Model for BitWriter {
    ghost use Rattle.std.specs.Prelude.{Bool, List, ◌<◌, ◌^◌};
    ghost use Rattle.lk_base.specs.Checksum.{bits_of};

    ghost Value = { List Bool };

    ghost view = { λ w. bits_of w.count w.bits };

    ghost invariant = { λ w. w.count < 128 };
}

impl BitWriter {
    /// Creates a writer in which no bit waits.
    pub fn new() -> BitWriter
        ensures { result ≡ [] }
    {
        BitWriter { bits: 0, count: 0 }
    }

    /// Puts the 67 bits of a code after the waiting ones, bit 66 first. Fewer than 61 bits wait before.
    pub fn push(&mut self, code: u128)
        requires waiting { length self.old < 61 }
        requires code { code < 2 ^ 67 }
        ensures bits { self.new ≡ self.old ++ bits_of 67 code }
        ensures count { length self.new ≡ length self.old + 67 }
    {
        self.bits = self.bits << CODE_BITS | code;
        self.count += CODE_BITS;
    }

    /// True if no bit waits.
    pub fn is_empty(&self) -> bool
        ensures { (result ≡ true) ↔ (self.now ≡ []) }
    {
        self.count == 0
    }

    /// Takes the next 8 waiting bits, the first of them as the byte's highest. `None` if fewer than 8 wait; nothing changes then.
    pub fn take(&mut self) -> Option<u8>
        ensures none { IsNone result ↔ length self.old < 8 }
        ensures unchanged { IfNone result (self.new ≡ self.old) }
        ensures some { IfSome result (λ byte. self.old ≡ bits_of 8 byte ++ self.new) }
        ensures count { IfSome result (λ _. length self.old ≡ length self.new + 8) }
    {
        if self.count < 8 {
            return None;
        }
        self.count -= 8;
        Some((self.bits >> self.count & 0xFF) as u8)
    }

    /// Takes the next 64 waiting bits, the first of them as the number's highest. At least that many wait.
    pub fn take_64(&mut self) -> u64
        requires { 64 ≤ length self.old }
        ensures bits { self.old ≡ bits_of 64 result ++ self.new }
        ensures count { length self.old ≡ length self.new + 64 }
    {
        self.count -= 64;
        (self.bits >> self.count & u64::MAX as u128) as u64
    }

    /// Takes the waiting bits, with zeros after them. Fewer than 8 bits wait. `None` if no bit waits.
    pub fn pad(&mut self) -> Option<u8>
        requires { length self.old < 8 }
        ensures none { IsNone result ↔ self.old ≡ [] }
        ensures some { IfSome result (λ byte. bits_of 8 byte ≡ self.old ++ replicate (8 - length self.old) false) }
        ensures empty { self.new ≡ [] }
    {
        if self.count == 0 {
            return None;
        }
        let byte = (self.bits << (8 - self.count) & 0xFF) as u8;
        self.count = 0;
        Some(byte)
    }
}
