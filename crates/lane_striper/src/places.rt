ghost use Rattle.std.specs.Prelude.{◌≡◌, ◌+◌, ◌*◌, ◌/◌, ◌%◌, ◌^◌, ◌<◌, ◌≤◌};

/// The lane that gets payload word `number`: the number modulo the lanes, of which there is at least 1.
pub fn lane_of(number: u64, lanes: u32) -> u32
    requires { 1 ≤ lanes }
    ensures value { result ≡ number % lanes }
    ensures bound { result < lanes }
{
    (number % lanes as u64) as u32
}

/// The place of payload word `number` on its lane: the number divided by the lanes, of which there is at least 1.
pub fn place_of(number: u64, lanes: u32) -> u64
    requires { 1 ≤ lanes }
    ensures { result ≡ number / lanes }
{
    number / lanes as u64
}

/// The number of the payload word at a place of a lane. It is below 2^64.
pub fn number_of(lane: u32, place: u64, lanes: u32) -> u64
    requires { place * lanes + lane < 2 ^ 64 }
    ensures { result ≡ place * lanes + lane }
{
    place * lanes as u64 + lane as u64
}
