//! The value of decimal digits.
ghost use Rattle.std.specs.Prelude.{◌≡◌, min};
ghost use Rattle.mos_scan.specs.Tokens as spec;

/// The value of the digits; where it is above 2147483647, then 2147483648.
pub(crate) fn number(digits: &[u8]) -> u64
    ensures { result ≡ min (spec.number_from 0 digits.now) 2147483648 }
{
    let mut rest = digits;
    let mut value: u64 = 0;
    while let [digit, after @ ..] = rest {
        if value > 2147483647 {
            return 2147483648;
        }
        value = value * 10 + u64::from(digit.saturating_sub(b'0'));
        rest = after;
    }
    value.min(2147483648)
}
