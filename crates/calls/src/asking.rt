// Questions of calls: the first that is answered no refuses the call.
ghost use Rattle.std.specs.Prelude.{◌≡◌, Ok, Err, if◌then◌else◌};

use rules::Refusal;

pub(crate) fn check(yes: bool, otherwise: Refusal) -> Result<(), Refusal>
    ensures { result ≡ (if yes then Ok tt else Err otherwise) }
{
    if yes { Ok(()) } else { Err(otherwise) }
}
