// What a table of readings is refused for.
ghost use Rattle.std.specs.Prelude.{◌≡◌};
ghost use Rattle.read_table.specs.Faults.{fault_number};

#[derive(Clone, Copy, Debug, PartialEq, Eq)]
pub enum TableFault {
    NotThreeFields = 1,
    DoseNotADecimal,
    GramsNotADecimal,
    TooManyDigits,
    PowerOutOfRange,
    NotAName,
    TooManyReadings,
    TooManyCanisters,
    NoReadings,
    DecimalComma,
    HeaderOutOfOrder,
}

impl TableFault {
    // 1 to 11, in the order above.
    pub fn number(self) -> u64
        ensures { result ≡ fault_number self }
    {
        self as u64
    }
}
