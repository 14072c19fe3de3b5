ghost use Rattle.std.specs.Prelude.{◌≡◌, Ok, Err, None, IfErr, OnOk, Some};
ghost use Rattle.fp_system.specs.Limits.{first_exceeded};

use fp_model::LimitName;

/// The most places that a system may have.
pub const MOST_PLACES: u64 = 1_048_576;

/// The most uses, and the most gives, summed over the tasks.
const MOST_USES: u64 = 16_777_216;

const MOST_GIVES: u64 = 16_777_216;

/// Refuses a system that is too large: the first of places, uses and gives that is above its bound, with the bound.
pub fn check_limits(places: u64, uses: u64, gives: u64) -> Result<(), (LimitName, u64)>
    ensures ok { OnOk result (first_exceeded places uses gives ≡ None) }
    ensures err { IfErr result (λ e. first_exceeded places uses gives ≡ Some e) }
{
    if places > MOST_PLACES {
        return Err((LimitName::Places, MOST_PLACES));
    }
    if uses > MOST_USES {
        return Err((LimitName::Uses, MOST_USES));
    }
    if gives > MOST_GIVES {
        return Err((LimitName::Gives, MOST_GIVES));
    }
    Ok(())
}
