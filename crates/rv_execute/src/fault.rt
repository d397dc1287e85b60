ghost use Rattle.std.specs.Prelude.{◌≡◌};
ghost use Rattle.rv_execute.specs.Faults.{fault_number};

/// Why a hart stops at an instruction.
#[derive(Clone, Copy, Debug, PartialEq, Eq)]
pub enum Fault {
    /// The word means no instruction of RV32IMA.
    Illegal,
    /// A jump or a taken branch to an address that is no multiple of 4.
    FetchMisaligned,
    /// The program counter is not on an executable page.
    FetchOutside,
    /// A load or a load-reserved at an address that is no multiple of its size.
    LoadMisaligned,
    /// A load or a load-reserved from a page that is not mapped.
    LoadOutside,
    /// A store, a store-conditional or an atomic operation at an address that is no multiple of its size.
    StoreMisaligned,
    /// One of these to a page that is not mapped.
    StoreOutside,
    /// One of these to a page that cannot be written.
    StoreReadOnly,
    /// EBREAK.
    Break,
}

impl Fault {
    /// The number that stands for the fault in a report, from 1 to 9.
    pub fn number(self) -> u8
        ensures { result ≡ fault_number self }
    {
        match self {
            Fault::Illegal => 1,
            Fault::FetchMisaligned => 2,
            Fault::FetchOutside => 3,
            Fault::LoadMisaligned => 4,
            Fault::LoadOutside => 5,
            Fault::StoreMisaligned => 6,
            Fault::StoreOutside => 7,
            Fault::StoreReadOnly => 8,
            Fault::Break => 9,
        }
    }
}
