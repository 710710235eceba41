// A call's answer as C has it: number and place of a refusal beside what is done, which is 0 where the call is refused.
ghost use Rattle.std.specs.Prelude.{◌≡◌};
ghost use Rattle.rules.specs.Told.{told, packed_of, pressed_of, why_of, sided_of, planned_of, floored_of, read_of, written_of, order_read_of};

use crate::{
    Arranged, Explained, Fault, Floored, OrderRead, Packed, Planned, Pressed, Refusal, SheetRead,
    SheetWritten, Sided, Why,
};

// What every answer begins with.
fn told<T>(answer: &Result<T, Refusal>) -> Fault
    ensures { result ≡ told answer.now }
{
    match answer {
        Ok(_) => Fault {
            number: 0,
            place: 0,
            short: 0,
        },
        Err(refusal) => Fault {
            number: refusal.cause.number(),
            place: refusal.place,
            short: refusal.short,
        },
    }
}

impl From<Result<(), Refusal>> for Fault {
    ghost from_gives = { λ answer c. c ≡ told answer };

    fn from(answer: Result<(), Refusal>) -> Fault {
        told(&answer)
    }
}

impl From<Result<usize, Refusal>> for Packed {
    ghost from_gives = { λ answer c. c ≡ packed_of answer };

    fn from(answer: Result<usize, Refusal>) -> Packed {
        let Fault { number, place, .. } = told(&answer);
        Packed {
            number,
            place,
            highest: answer.unwrap_or(0),
        }
    }
}

impl From<Result<usize, Refusal>> for Sided {
    ghost from_gives = { λ answer c. c ≡ sided_of answer };

    fn from(answer: Result<usize, Refusal>) -> Sided {
        let Fault { number, place, .. } = told(&answer);
        Sided {
            number,
            place,
            low: answer.unwrap_or(0),
        }
    }
}

impl From<Result<usize, Refusal>> for Floored {
    ghost from_gives = { λ answer c. c ≡ floored_of answer };

    fn from(answer: Result<usize, Refusal>) -> Floored {
        let Fault { number, place, .. } = told(&answer);
        Floored {
            number,
            place,
            floor: answer.unwrap_or(0),
        }
    }
}

impl From<Result<usize, Refusal>> for SheetRead {
    ghost from_gives = { λ answer c. c ≡ read_of answer };

    fn from(answer: Result<usize, Refusal>) -> SheetRead {
        let Fault { number, place, .. } = told(&answer);
        SheetRead {
            number,
            place,
            n: answer.unwrap_or(0),
        }
    }
}

impl From<Result<usize, Refusal>> for SheetWritten {
    ghost from_gives = { λ answer c. c ≡ written_of answer };

    fn from(answer: Result<usize, Refusal>) -> SheetWritten {
        let Fault { number, place, .. } = told(&answer);
        SheetWritten {
            number,
            place,
            length: answer.unwrap_or(0),
        }
    }
}

impl From<Result<usize, Refusal>> for Pressed {
    ghost from_gives = { λ answer c. c ≡ pressed_of answer };

    fn from(answer: Result<usize, Refusal>) -> Pressed {
        let Fault {
            number,
            place,
            short,
        } = told(&answer);
        Pressed {
            number,
            place,
            short,
            highest: answer.unwrap_or(0),
        }
    }
}

impl From<Result<Explained, Refusal>> for Why {
    ghost from_gives = { λ answer c. c ≡ why_of answer };

    fn from(answer: Result<Explained, Refusal>) -> Why {
        let Fault {
            number,
            place,
            short,
        } = told(&answer);
        let chain = answer.unwrap_or(Explained { length: 0, down: 0 });
        Why {
            number,
            place,
            short,
            length: chain.length,
            down: chain.down,
        }
    }
}

impl From<Result<Arranged, Refusal>> for Planned {
    ghost from_gives = { λ answer c. c ≡ planned_of answer };

    fn from(answer: Result<Arranged, Refusal>) -> Planned {
        let Fault { number, place, .. } = told(&answer);
        let plan = answer.unwrap_or(Arranged {
            highest: 0,
            kept: 0,
        });
        Planned {
            number,
            place,
            highest: plan.highest,
            kept: plan.kept,
        }
    }
}

impl From<Result<(), Refusal>> for OrderRead {
    ghost from_gives = { λ answer c. c ≡ order_read_of answer };

    fn from(answer: Result<(), Refusal>) -> OrderRead {
        let Fault { number, place, .. } = told(&answer);
        OrderRead { number, place }
    }
}
