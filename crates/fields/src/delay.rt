// The delays tgd, iscp and iscd.
ghost use Rattle.std.specs.Prelude.{◌≡◌};
ghost use Rattle.fields.specs.Delay.{delay_of};

// The count that means that no delay is available.
const NOT_AVAILABLE: i64 = -4096;

// What a count of tgd, iscp or iscd says: -4096, that no delay is available; every other count is the delay.
pub fn delay_of(count: i64) -> Option<i64>
    ensures { result ≡ delay_of count }
{
    if count == NOT_AVAILABLE {
        return None;
    }
    Some(count)
}
