// The refusals of load, extract and print (01, "Turned down, by operation"), and their numbers.
#![tactic(auto)]

ghost use Rattle.std.specs.Prelude.{◌≡◌};
ghost use Rattle.refusal.specs.Numbers.{number_of};

#[derive(Clone, Copy, Debug, PartialEq, Eq)]
pub enum Refusal {
    // Load: a sheet without bytes; a record that is not of the form, of an unknown kind or with a wrong field count; a
    // bad name; a bad constant; a number that is no earlier node's; a limit that is passed; too few places lent.
    NoBytes,
    Malformed,
    BadName,
    BadConstant,
    NotEarlier,
    TooLarge,
    ShortTable,
    // Extract: a work area that is too short; rows that load couldn't lay out; a rebuilt coefficient that is no
    // constant; bindings that need each other, or one that needs itself; more rows than lent.
    ShortWork,
    BadRows,
    BadCoefficient,
    Ring,
    TooManyRows,
    // Print: rows that extract couldn't lay out; a text longer than the buffer.
    BadAnswer,
    LongText,
    // Extract, scoped: scopes that are larger than the work area allows.
    LargeScopes,
}

impl From<Refusal> for u64 {
    ghost from_gives = { λ r n. n ≡ number_of r };

    fn from(refusal: Refusal) -> u64 {
        match refusal {
            Refusal::NoBytes => 1,
            Refusal::Malformed => 2,
            Refusal::BadName => 3,
            Refusal::BadConstant => 4,
            Refusal::NotEarlier => 5,
            Refusal::TooLarge => 6,
            Refusal::ShortTable => 7,
            Refusal::ShortWork => 8,
            Refusal::BadRows => 9,
            Refusal::BadCoefficient => 10,
            Refusal::Ring => 11,
            Refusal::TooManyRows => 12,
            Refusal::BadAnswer => 13,
            Refusal::LongText => 14,
            Refusal::LargeScopes => 23,
        }
    }
}
