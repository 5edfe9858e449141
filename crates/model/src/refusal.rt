// Why a call refuses, as the code has it. To C each reason is a number.
ghost use Rattle.std.specs.Prelude.{◌≡◌};
ghost use Rattle.model.specs.declared.refusal.ListRefusal.TheVariants.{Refused};
ghost use Rattle.model.specs.declared.refusal.Fault.TheVariants.{Refused as Judged};
ghost use Rattle.model.specs.Refusals.{number_of, list_number_of, list_count_of, fault_number_of, fault_rule_of};

// The reasons, in the order of their numbers, of which 14 is a list's alone.
#[derive(Clone, Copy, PartialEq, Eq)]
pub enum Refusal {
    WrongLength,
    WrongFirstBytes,
    WrongEdition,
    NotSound,
    KeyTooLarge,
    VersionAboveLast,
    NoUpdateOpen,
    UpdateAlreadyOpen,
    VersionsUsedUp,
    KeyAlive,
    KeyNotAlive,
    NoPageFree,
    NoSlotFree,
    NothingChanged,
    ValueNotAdmitted,
    KeyUnknown,
}

// Why a call refuses that tells a list: as any call does, or since the caller's list is too short for so many.
#[derive(Clone, Copy, PartialEq, Eq)]
pub enum ListRefusal {
    Refused(Refusal),
    TooShort(usize),
}

// What check finds: what any call refuses before it judges, or the lowest broken rule.
#[derive(Clone, Copy, PartialEq, Eq)]
pub enum Fault {
    Refused(Refusal),
    Broken(u32),
}

impl Refusal {
    // The number of a refusal.
    pub fn number(self) -> u32
        ensures { result ≡ number_of self }
    {
        match self {
            Refusal::WrongLength => 1,
            Refusal::WrongFirstBytes => 2,
            Refusal::WrongEdition => 3,
            Refusal::NotSound => 4,
            Refusal::KeyTooLarge => 5,
            Refusal::VersionAboveLast => 6,
            Refusal::NoUpdateOpen => 7,
            Refusal::UpdateAlreadyOpen => 8,
            Refusal::VersionsUsedUp => 9,
            Refusal::KeyAlive => 10,
            Refusal::KeyNotAlive => 11,
            Refusal::NoPageFree => 12,
            Refusal::NoSlotFree => 13,
            Refusal::NothingChanged => 15,
            Refusal::ValueNotAdmitted => 16,
            Refusal::KeyUnknown => 17,
        }
    }
}

impl ListRefusal {
    // The number of a refusal: 14 for a list that is too short.
    pub fn number(self) -> u32
        ensures { result ≡ list_number_of self }
    {
        match self {
            ListRefusal::Refused(r) => r.number(),
            ListRefusal::TooShort(_) => 14,
        }
    }

    // How many the list is to hold, where it is too short for them; "any result not named here is 0".
    pub fn count(self) -> usize
        ensures { result ≡ list_count_of self }
    {
        match self {
            ListRefusal::Refused(_) => 0,
            ListRefusal::TooShort(count) => count,
        }
    }
}

impl From<Refusal> for ListRefusal {
    ghost from_gives = { λ r e. e ≡ Refused r };

    fn from(r: Refusal) -> ListRefusal {
        ListRefusal::Refused(r)
    }
}

impl Fault {
    // The number of check: 4 with a broken rule.
    pub fn number(self) -> u32
        ensures { result ≡ fault_number_of self }
    {
        match self {
            Fault::Refused(r) => r.number(),
            Fault::Broken(_) => 4,
        }
    }

    // The lowest broken rule, or 0.
    pub fn rule(self) -> u32
        ensures { result ≡ fault_rule_of self }
    {
        match self {
            Fault::Refused(_) => 0,
            Fault::Broken(rule) => rule,
        }
    }
}

impl From<Refusal> for Fault {
    ghost from_gives = { λ r e. e ≡ Judged r };

    fn from(r: Refusal) -> Fault {
        Fault::Refused(r)
    }
}
