ghost use Rattle.std.specs.Prelude.{◌≡◌, ◌≤◌, MatchOption};
ghost use Rattle.ic_laws.specs.Dialect.{error_number};

use ic_laws::Error;

/// The number of an error: its place in the list, from 0.
pub fn error_number(error: Error) -> usize
    ensures { result ≡ error_number error }
{
    error as usize
}

/// The error of a number. None from 12 on.
pub fn error_of(number: usize) -> Option<Error>
    ensures { MatchOption result (12 ≤ number) (λ e. error_number e ≡ number) }
{
    match number {
        0 => Some(Error::REF),
        1 => Some(Error::NAME),
        2 => Some(Error::VALUE),
        3 => Some(Error::DIV),
        4 => Some(Error::NA),
        5 => Some(Error::NUM),
        6 => Some(Error::NIMPL),
        7 => Some(Error::SPILL),
        8 => Some(Error::CALC),
        9 => Some(Error::CIRC),
        10 => Some(Error::ERROR),
        11 => Some(Error::NULL),
        _ => None,
    }
}
