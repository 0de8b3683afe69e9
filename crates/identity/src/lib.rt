// Who a message is for: identities, which write themselves as twelve bytes.
#![tactic(auto)]

ghost use Rattle.std.specs.Prelude.{◌≡◌, ℕ, List, length, Decides};
ghost use Rattle.std.specs.Str.{bytes_eq};

use base::IDENTITY_BYTES;

mod chip;
mod plate;

pub use chip::Chip;
pub use plate::Plate;

/// Who a message is for. An identity writes itself as twelve bytes, and two are equal exactly where
/// these bytes are.
pub trait Identity {
    // The twelve bytes.
    ghost id_bytes: { Self → List ℕ };

    /// The twelve bytes.
    fn bytes(&self) -> [u8; IDENTITY_BYTES]
        ensures { result ≡ id_bytes self.now };

    /// Whether these are its bytes.
    // A method and no `==`: bytes are compared with an identity, and not two of one type.
    fn is(&self, bytes: &[u8; IDENTITY_BYTES]) -> bool
        ensures { result ≡ bytes_eq (id_bytes self.now) bytes.now }
    {
        self.bytes() == *bytes
    }

    /// Whether the other is the same.
    // A method and no bound `Eq`: of `==` under a bound no more is known than that it is an equivalence.
    fn same(&self, other: &Self) -> bool
        ensures bytes { result ≡ bytes_eq (id_bytes self.now) (id_bytes other.now) }
        ensures exact { Decides result (self.now ≡ other.now) }
    {
        self.is(&other.bytes())
    }

    ghost twelve: { (x : Self) → length (id_bytes x) ≡ 12 };

    ghost exact: { (x y : Self) → Decides (bytes_eq (id_bytes x) (id_bytes y)) (x ≡ y) };
}
