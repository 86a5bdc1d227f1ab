//! How transactions end, each status with the number that is printed for it.

ghost use Rattle.std.specs.Prelude.{◌≡◌};
ghost use Rattle.lc_base.specs.TxStatus.{tx_status_number};

/// How a transaction ended. The first failure in the order of evaluation decides.
#[derive(Clone, Copy, PartialEq, Eq)]
pub enum TxStatus {
    /// It succeeded.
    Ok = 0,
    /// It reads or writes a key that an earlier transaction of its block wrote.
    Conflict = 1,
    /// A key has no version.
    NoKey = 2,
    /// It writes a key that it may not write.
    Foreign = 3,
    /// No contract of that name can be called.
    NoContract = 4,
    /// The contract has no function of that name.
    NoFunction = 5,
    /// The arguments differ from the function's parameters, in number or in kind.
    BadArgs = 6,
    /// The budget of steps is used up.
    OutOfSteps = 7,
    /// A number is outside the range of an `i64`.
    Overflow = 8,
    /// A number is divided by 0.
    DivZero = 9,
    /// A value is of the other kind.
    WrongKind = 10,
    /// A block that is asked about is not before the transaction's own.
    BadBlock = 11,
    /// An index is not less than the count.
    BadIndex = 12,
    /// A joined text is longer than `MAX_JOINED_BYTES`.
    TextTooLong = 13,
    /// A text is not a key.
    BadKey = 14,
    /// A contract of that name was deployed before.
    Taken = 15,
    /// A source text is not a contract.
    BadSource = 16,
    /// It reads or puts too many keys, or a version has too many dependencies.
    TooMany = 17,
    /// A version is said to be derived from a key that was not read.
    NotRead = 18,
    /// The contract gave up with `fail`.
    Failed = 19,
}

impl TxStatus {
    /// The number that is printed for the status, 0 to 19.
    pub fn number(self) -> u8
        ensures { result ≡ tx_status_number self }
    {
        self as u8
    }
}
