// Refusals by their numbers.
ghost use Rattle.std.specs.Prelude.{◌≡◌};
ghost use Rattle.turns.specs.Refusals.{accepted, refused_by};

use crate::types::Refused;
use answers::Refusal;

// Nothing is refused.
pub fn no_refusal() -> Refused
    ensures { result ≡ accepted }
{
    Refused {
        number: 0,
        mark: 0,
        page: 0,
        cell: 0,
        column: 0,
    }
}

pub fn refused_by(refusal: Refusal) -> Refused
    ensures { result ≡ refused_by refusal }
{
    let numbers = answers::numbers_of(refusal);
    Refused {
        number: numbers.number,
        mark: numbers.mark,
        page: numbers.page,
        cell: numbers.cell,
        column: numbers.column,
    }
}
