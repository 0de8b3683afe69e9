// The messages' entry for C: a static library over `messages`.
#![tactic(auto)]

ghost use Rattle.std.specs.Prelude.{◌≡◌};
ghost use Rattle.messages.specs.Entry.{kind_answer, EntryLaws};

use messages::Kind;

// What is added to the number of a refusal. C is told numbers, and `messages` speaks of kinds and cases.
const REFUSED: u32 = 100;

/// The number of a message's kind, or 100 and the number of the refusal: `Empty`, `NoKind` or
/// `BadLength`, tried in this order. `include/neltobur.h` declares it.
#[unsafe(no_mangle)]
pub extern "C" fn neltobur_message_kind(message: &[u8]) -> u32
    ensures answer { result ≡ kind_answer message.now }
    ensures laws { EntryLaws }
{
    match Kind::of_message(message) {
        Ok(kind) => u32::from(u8::from(kind)),
        Err(case) => REFUSED + u32::from(u8::from(case)),
    }
}
