//! Object identifiers.

ghost use Rattle.std.specs.Prelude.{◌<◌, ◌^◌, ◌↔◌, ◌≡◌, IfSome, IsSome};

// How many object types exist: they are numbered in ten bits.
const TYPES: u16 = 1 << 10;

// How many instances a type can have: they are numbered in 22 bits.
const INSTANCES: u32 = 1 << 22;

/// The identifier of an object: its type and its instance (ANSI/ASHRAE 135, 20.2.14 and 21).
#[derive(Clone, Copy, Debug, PartialEq, Eq)]
pub struct ObjectId {
    kind: u16,
    instance: u32,
    ghost kind_fits: { kind < 1024 },
    ghost instance_fits: { instance < 2 ^ 22 },
}

impl ObjectId {
    ghost use Rattle.bac_wire.specs.Identifier.{identifier, identifier_of, IsIdentifier, number_of};

    /// Returns the identifier of this type and instance; `None` past type 1023 or instance 4,194,303.
    pub fn new(kind: u16, instance: u32) -> Option<Self>
        ensures valid { IsSome result ↔ ((kind < 1024) × (instance < 2 ^ 22)) }
        ensures value { IfSome result (λ id. identifier id ≡ record { kind = kind; instance = instance }) }
    {
        if kind < TYPES && instance < INSTANCES {
            Some(ObjectId { kind, instance })
        } else {
            None
        }
    }

    /// Returns the object's type, below 1024.
    pub fn kind(self) -> u16
        ensures value { result ≡ (identifier self).kind }
        ensures fits { result < 1024 }
    {
        self.kind
    }

    /// Returns the object's instance among those of its type, below 4,194,304.
    pub fn instance(self) -> u32
        ensures value { result ≡ (identifier self).instance }
        ensures fits { result < 2 ^ 22 }
    {
        self.instance
    }

    /// Returns the number of the identifier on the wire: the type in its ten high bits, the instance in the 22 low
    /// ones.
    pub fn number(self) -> u32
        ensures value { result ≡ number_of (identifier self) }
        ensures fits { IsIdentifier (identifier self) }
    {
        let ObjectId { kind, instance } = self;
        u32::from(kind) * INSTANCES + instance
    }

    /// Returns the identifier with this number on the wire.
    pub fn of_number(number: u32) -> Self
        ensures { identifier result ≡ identifier_of number }
    {
        ObjectId {
            kind: (number / INSTANCES) as u16,
            instance: number % INSTANCES,
        }
    }
}
