// The question that a store asks first in each operation that needs power.
ghost use Rattle.std.specs.Prelude.{◌≡◌, if◌then◌else◌, Ok, Err};

// Without power the operation answers this fault.
pub fn check_power<F: Copy>(powered: bool, lost: F) -> Result<(), F>
    ensures { result ≡ (if powered then Ok tt else Err lost) }
{
    if powered { Ok(()) } else { Err(lost) }
}
