// The value of a calculation.

/// Why a formula has no number.
#[derive(Clone, Copy, Debug, PartialEq, Eq)]
pub enum Bad {
    /// The window starts before the first point, or ends after the last.
    NoData,
    /// A division by 0.
    DivZero,
    /// The number is more than 10^18 away from 0.
    Range,
}

/// The value of a formula in a window.
#[derive(Clone, Copy, Debug, PartialEq, Eq)]
pub enum CalcValue {
    /// A whole number, at most 10^18 away from 0.
    Num(i64),
    /// No number, and the reason.
    Bad(Bad),
}
