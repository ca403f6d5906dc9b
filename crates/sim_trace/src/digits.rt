//! The digits of numbers.
ghost use Rattle.std.specs.Prelude.{◌≡◌, ◌+◌, ◌<◌, ◌≤◌, ◌++◌, ◌*◌, ◌/◌, ◌%◌, ◌^◌, length, take, decimal};

use itoa::write_digits;
use std::marker::Model;

/// No number has more digits.
const MOST_DIGITS: usize = 20;

/// How many digits a number has.
#[tactic(auto, using(itoa::proofs::Decimal::length_four, crate::proofs::DigitCounts::most_digits))]
pub(crate) fn digit_count(number: u64) -> usize
    ensures count { result ≡ length (decimal number) }
    ensures few { result ≤ 20 }
{
    let mut left = number;
    let mut count = 0;
    while left >= 10_000 {
        left /= 10_000;
        count += 4;
    }
    count + few_digits(left)
}

// How many digits a number has that is below ten thousand.
#[tactic(auto, using(itoa::proofs::Decimal::length_one, itoa::proofs::Decimal::length_two, itoa::proofs::Decimal::length_pair))]
fn few_digits(number: u64) -> usize
    requires { number < 10000 }
    ensures { result ≡ length (decimal number) }
{
    if number < 10 {
        1
    } else if number < 100 {
        2
    } else if number < 1_000 {
        3
    } else {
        4
    }
}

/// A number with its digits, at hand for one that has two more behind the same.
#[derive(Drop)]
pub(crate) struct Leading {
    number: u64,
    digits: [u8; MOST_DIGITS],
    count: usize,
}

impl Model for Leading {
    ghost use Rattle.std.specs.Prelude.{ℕ};
    ghost use Rattle.sim_trace.specs.Leadings.{HasDigits};

    ghost Value = { ℕ };

    ghost view = { λ a. a.number };

    ghost invariant = { λ a. HasDigits a.number a.count a.digits };
}

impl Leading {
    /// The number 0.
    pub(crate) fn new() -> Leading
        ensures { result ≡ 0 }
    {
        Leading {
            number: 0,
            digits: [b'0'; MOST_DIGITS],
            count: 1,
        }
    }

    /// Another number, which has two digits more in 64 bits.
    #[inline(never)]
    fn set(&mut self, number: u64)
        requires { 100 * number < 2 ^ 64 }
        ensures { self.new ≡ number }
    {
        self.count = digit_count(number);
        write_digits(number, &mut self.digits, self.count);
        self.number = number;
    }

    /// Becomes what leads this number, unless it is that already. The answer is what its last two digits say.
    fn lead(&mut self, number: u64) -> u64
        requires { 100 ≤ number }
        ensures leads { self.new ≡ number / 100 }
        ensures rest { result ≡ number % 100 }
    {
        match number.checked_sub(self.number * 100) {
            Some(rest) if rest < 100 => rest,
            _ => {
                self.set(number / 100);
                number % 100
            }
        }
    }

    /// Puts the digits into a line, from this place on. The answer is the place behind them.
    fn put(&self, line: &mut [u8], at: usize) -> usize
        requires { at + 20 ≤ length line.old }
        ensures digits { take result line.new ≡ take at line.old ++ decimal self.now }
        ensures end { result ≡ at + length (decimal self.now) }
        ensures length { length line.new ≡ length line.old }
    {
        // by value, so that the digits and the line are known to be two things
        let digits = self.digits;
        line[at..at + MOST_DIGITS].copy_from_slice(&digits);
        at + self.count
    }
}

/// Puts the digits of a number into a line, from this place on. The answer is the place behind them. All but the last two
/// are mostly at hand: they are those of the number that was put with them before.
#[inline(always)]
pub(crate) fn put_digits(leading: &mut Leading, number: u64, line: &mut [u8], at: usize) -> usize
    requires { at + 22 ≤ length line.old }
    ensures digits { take result line.new ≡ take at line.old ++ decimal number }
    ensures end { result ≡ at + length (decimal number) }
    ensures few { result ≤ at + 20 }
    ensures length { length line.new ≡ length line.old }
{
    if number < 100 {
        let end = at + digit_count(number);
        write_digits(number, line, end);
        return end;
    }
    let rest = leading.lead(number) as u8;
    let end = leading.put(line, at);
    line[end] = b'0' + rest / 10;
    line[end + 1] = b'0' + rest % 10;
    end + 2
}
