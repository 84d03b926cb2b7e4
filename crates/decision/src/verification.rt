// The Terminal Verification Results (TVR).
ghost use Rattle.std.specs.Prelude.{◌≡◌, ◌≤◌, nat_lt, pos};
ghost use Rattle.decision.specs.Amounts.{decimal, two_digits};
ghost use Rattle.decision.specs.Decision.{results};
ghost use Rattle.decision.specs.Laws.{NeverMilder};

use std::iter;

// The number that a byte's two decimal digits mean.
fn two_digits(b: u8) -> i32
    ensures value { result ≡ pos (two_digits b) }
    ensures small { two_digits b ≤ 165 }
{
    i32::from(b / 16 * 10 + b % 16)
}

// Whether one number of decimal digits exceeds another, whatever their lengths. They are compared byte by byte, from the
// first, by how far the amount leads: a lead of two is never lost, since two digits mean at most 165.
fn exceeds(amount: &[u8], floor: &[u8]) -> bool
    ensures value { result ≡ nat_lt (decimal floor.now) (decimal amount.now) }
    ensures law { NeverMilder amount.now floor.now }
{
    let n = amount.len().max(floor.len());
    let amounts = iter::repeat_n(0, n - amount.len()).chain(amount.iter().copied());
    let floors = iter::repeat_n(0, n - floor.len()).chain(floor.iter().copied());
    let mut lead = 0;
    for (a, f) in amounts.zip(floors) {
        lead = lead * 100 + two_digits(a) - two_digits(f);
        if lead > 1 {
            return true;
        }
        if lead < -1 {
            return false;
        }
    }
    lead > 0
}

// The results of a sale: bit 8 of byte 4 tells that the amount exceeds the floor limit. A higher amount never makes
// what is decided by them milder.
pub fn verify(amount: &[u8], floor: &[u8]) -> [u8; 5]
    ensures value { result ≡ results amount.now floor.now }
    ensures law { NeverMilder amount.now floor.now }
{
    let mut tvr = [0; 5];
    if exceeds(amount, floor) {
        tvr[3] = 0x80;
    }
    tvr
}
