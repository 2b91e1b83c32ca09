// The numbers that a call takes and hands back.
ghost use Rattle.std.specs.Prelude.{◌≡◌, ◌∷◌, pos, length};
ghost use Rattle.exports.specs.Calls.{toi_of};

use words::time::LAST_TOI;

// The time that a number is; 400, which is no time, for a number that is none from 0 to 399.
// Not an Option: `build` refuses 400, each refusal in its order (theorem `no_time_refused`).
pub(crate) fn toi_of(number: i64) -> u16
    ensures { result ≡ toi_of number }
{
    u16::try_from(number).unwrap_or(u16::MAX).min(LAST_TOI + 1)
}

// A time and its counts over as many numbers.
pub(crate) fn put_numbers(toi: u16, counts: &[i64], into: &mut [i64])
    requires { length (pos toi ∷ counts.now) ≡ length into.old }
    ensures { into.new ≡ pos toi ∷ counts.now }
{
    into[0] = i64::from(toi);
    into[1..].copy_from_slice(counts);
}
