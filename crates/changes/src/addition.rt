// An addition: a kind of change that adds to a number in a page's content, modulo 2^32.
ghost use Rattle.std.specs.Prelude.{◌≡◌, true};
ghost use Rattle.changes.specs.AdditionForm.{addition_ok};

mod change;
mod parts;

#[derive(Clone, Copy)]
pub struct Addition {
    offset: u8,
    amount: u32,
    ghost formed: { addition_ok offset amount ≡ true },
}
