ghost use Rattle.std.specs.Prelude.{◌≡◌, ◌<◌, ◌^◌, ◌≤ℤ◌, ◌+ℤ◌, ◌||◌, int_lt, pos, negsuc, Option, IfSome, if◌then◌else◌, Some, None};
ghost use Rattle.lane_lock.specs.Run.{are_codes};
ghost use Rattle.std.specs.Int.Count.{ones_in};
ghost use Rattle.lane_model.specs.Coding.{excess};
ghost use Rattle.lane_events.specs.Balance.{balance_after, balance_over as balance_after_all, is_far_off};

use lane_model::CODE_BITS;

// How far apart the ones and the zeros in the codes of a lock may be: beyond it they are unbalanced.
const MOST: i32 = 129;

/// Returns the ones less the zeros in a code of 67 bits.
pub fn excess_of(code: u128) -> i32
    requires { code < 2 ^ 67 }
    ensures value { result ≡ excess 67 (ones_in 67 code) }
    ensures low { negsuc 66 ≤ℤ result }
    ensures high { result ≤ℤ pos 67 }
{
    2 * code.count_ones() as i32 - CODE_BITS as i32
}

/// Adds the ones less the zeros of one code more; `None` if they were or are now over 129 apart.
pub fn balance_with(before: Option<i32>, code: u128) -> Option<i32>
    requires code { code < 2 ^ 67 }
    requires low { IfSome before (λ n. negsuc 128 ≤ℤ n) }
    requires high { IfSome before (λ n. n ≤ℤ pos 129) }
    ensures value { result ≡ balance_after before (excess 67 (ones_in 67 code)) }
    ensures low { IfSome result (λ n. negsuc 128 ≤ℤ n) }
    ensures high { IfSome result (λ n. n ≤ℤ pos 129) }
{
    match before {
        None => None,
        Some(n) => within(n + excess_of(code)),
    }
}

/// Adds the ones less the zeros of eight codes more, one after another; `None` if they were or are then over 129 apart.
#[inline(always)]
pub fn balance_over(before: Option<i32>, codes: &[u128; 8]) -> Option<i32>
    requires codes { are_codes codes.now }
    requires low { IfSome before (λ n. negsuc 128 ≤ℤ n) }
    requires high { IfSome before (λ n. n ≤ℤ pos 129) }
    ensures value { result ≡ balance_after_all before codes.now }
    ensures low { IfSome result (λ n. negsuc 128 ≤ℤ n) }
    ensures high { IfSome result (λ n. n ≤ℤ pos 129) }
{
    let mut balance = before;
    for place in 0..8 {
        balance = balance_with(balance, codes[place]);
    }
    balance
}

// Returns the number, if it is not over 129 from 0.
fn within(n: i32) -> Option<i32>
    ensures value { result ≡ (if is_far_off n then None else Some n) }
    ensures low { IfSome result (λ n. negsuc 128 ≤ℤ n) }
    ensures high { IfSome result (λ n. n ≤ℤ pos 129) }
{
    if n > MOST || n < -MOST { None } else { Some(n) }
}
