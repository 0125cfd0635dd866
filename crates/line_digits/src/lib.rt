// Digits in ASCII, and how many of them a number has.
#![tactic(auto)]

ghost use Rattle.std.specs.Prelude.{◌≡◌, ◌%◌, length};
ghost use Rattle.line_digits.specs.Digits.{digit_of, decimal};

// The last hexadecimal digit of a number, and the decimal digit of one below 10.
#[tactic(auto, unfolding(crate::specs::Digits::digit_of))]
pub fn digit(n: u32) -> u8
    ensures { result ≡ digit_of (n % 16) }
{
    let d = n % 16;
    if d < 10 {
        b'0' + d as u8
    } else {
        b'A' + (d - 10) as u8
    }
}

// How many digits a number has in decimal.
pub fn decimal_length(n: u32) -> usize
    ensures { result ≡ length (decimal n) }
{
    // It divides and counts no index. `ilog10` refuses 0 and speaks of powers of 10: no plainer, and the laws `counted_*`, which must stand, would go unused.
    let mut rest = n;
    let mut places = 1;
    while 10 <= rest {
        rest /= 10;
        places += 1;
    }
    places
}
