ghost use Rattle.std.specs.Prelude.{◌≡◌, ◌<◌, ◌≤◌, ◌^◌, ◌++◌, []};
ghost use Rattle.lk_base.specs.Checksum.{bits_of};

use coding_67b::BitReader;
use lane_model::CODE_BITS;

// The first `count` bits of a piece as a number, the first of them highest.
#[derive(Clone, Copy)]
pub struct CodePiece {
    pub count: u32,
    pub bits: u128,
}

// Takes the bits of the next code of a lane, or as many as are left.
pub fn next_piece(reader: &mut BitReader) -> CodePiece
    ensures count { result.count ≤ 67 }
    ensures below { result.bits < 2 ^ result.count }
    ensures bits { reader.old ≡ bits_of result.count result.bits ++ reader.new }
    ensures all { result.count < 67 → reader.new ≡ [] }
{
    let mut bits = 0u128;
    for count in 0..CODE_BITS {
        match reader.bit() {
            Some(bit) => bits = bits << 1 | bit as u128,
            None => return CodePiece { count, bits },
        }
    }
    CodePiece {
        count: CODE_BITS,
        bits,
    }
}
