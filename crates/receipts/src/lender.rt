//! What lends the bytes of a delivered packet.
ghost use Rattle.std.specs.Prelude.{◌≡◌, ℕ, Bool, List, true, length};

use reassembly::Reassembly;

/// A receiver that lends the bytes of the packet that it gave last.
pub trait Lender {
    /// It lends the bytes of a packet.
    ghost lends: { Self → Bool };

    /// The bytes that it lends.
    ghost packet: { Self → List ℕ };

    /// Copies the bytes of the packet that is lent into `buf`, which has room for just as many.
    fn copy_packet(&self, buf: &mut [u8])
        requires lends { lends self.now ≡ true }
        requires room { length buf.old ≡ length (packet self.now) }
        ensures { buf.new ≡ packet self.now };
}

impl Lender for Reassembly {
    ghost lends = { λ r. r.lending };

    ghost packet = { λ r. r.packet };

    fn copy_packet(&self, buf: &mut [u8]) {
        self.packet_read(0, buf);
    }
}
