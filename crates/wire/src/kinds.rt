// The kinds of a record, and the byte that a record of each begins with.
ghost use Rattle.wire.specs.Format.{IsKindOf};
ghost use Rattle.wire.specs.FunctionContracts.{ByteSays, RecordSizeSays, KindSays};

use model::Period;

#[derive(Clone, Copy)]
pub enum Kind {
    Periodic,
    Single,
}

// A byte that no record begins with.
#[derive(Clone, Copy)]
pub struct UnknownKind;

impl TryFrom<u8> for Kind {
    type Error = UnknownKind;

    ghost try_from_gives = { IsKindOf };

    // Chosen with no branch, and by the byte 2: so the compiler sees that `rest` asks what was asked for the element, and asks once.
    #[tactic(auto, unfolding(crate::specs::Format::is_kind))]
    fn try_from(byte: u8) -> Result<Kind, UnknownKind> {
        let kind = match byte {
            2 => Kind::Single,
            _ => Kind::Periodic,
        };
        if u8::from(kind) == byte {
            Ok(kind)
        } else {
            Err(UnknownKind)
        }
    }
}

impl From<Period> for Kind {
    ghost from_gives = { KindSays };

    fn from(period: Period) -> Kind {
        match period {
            Period::Once => Kind::Single,
            Period::Every(_) => Kind::Periodic,
        }
    }
}

impl From<Kind> for u8 {
    ghost from_gives = { ByteSays };

    fn from(kind: Kind) -> u8 {
        match kind {
            Kind::Periodic => 1,
            Kind::Single => 2,
        }
    }
}

impl Kind {
    // How many bytes a record of this kind has, its kind byte among them.
    #[tactic(auto, unfolding(crate::specs::Format::body_size))]
    pub fn record_size(self) -> usize
        ensures { RecordSizeSays self result }
    {
        match self {
            Kind::Periodic => 17,
            Kind::Single => 13,
        }
    }
}
