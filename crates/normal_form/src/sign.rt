// Signs, and the slots of rows under them.
ghost use Rattle.std.specs.Prelude.{◌≡◌, ◌*◌, ◌≤◌, ◌<◌};
ghost use Rattle.normal_form.specs.Sign.{sign_of, slot_of, turned as turnedOf};

// A row is taken as it stands, or negated.
#[derive(Clone, Copy)]
pub enum Sign {
    Plain,
    Negated,
}

// Stays: `impl Not` with its ghost member is longer than this, and `turned` is the word of the definitions.
pub fn turned(sign: Sign) -> Sign
    ensures answer { result ≡ turnedOf sign }
{
    match sign {
        Sign::Plain => Sign::Negated,
        Sign::Negated => Sign::Plain,
    }
}

// Each row has two slots, in the normal form's order: rising by the row's number, plain before negated.
// Stays: the definitions `reach` and `listing` under the theorem `normal` number the slots so.
pub fn slot(number: u8, sign: Sign) -> usize
    requires { 1 ≤ number }
    ensures answer { (result ≡ slot_of number sign) × (result < 2 * number) }
{
    let plain = 2 * (number as usize - 1);
    match sign {
        Sign::Plain => plain,
        Sign::Negated => plain + 1,
    }
}

// The sign of a slot.
pub fn sign_of(slot: usize) -> Sign
    ensures answer { result ≡ sign_of slot }
{
    if slot % 2 == 0 {
        Sign::Plain
    } else {
        Sign::Negated
    }
}
