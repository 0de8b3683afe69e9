// The taggers beside separate code, over many texts.
use base::WORK_BYTES;
use tagging::Tagger;

// The longest text, and how many texts there are of each length.
const LONGEST: usize = 128;

const TEXTS: usize = 32;

/// The texts of one comparison.
pub(crate) const COMPARED: usize = (LONGEST + 1) * TEXTS;

/// Whether a tagger gives this tag and leaves no working byte.
pub(crate) fn gives<T: Tagger>(tagger: &T, key: &[u8; 16], text: &[u8], tag: &[u8; 8]) -> bool {
    let mut out = [0; 8];
    let mut work = [255; WORK_BYTES];
    tagger.tag(key, text, &mut out, &mut work).is_ok() && out == *tag && work == [0; WORK_BYTES]
}

// Numbers that come one after another with no plan to see: xorshift.
#[derive(Drop)]
struct Numbers {
    state: u64,
}

impl Numbers {
    fn byte(&mut self) -> u8 {
        let mut x = self.state;
        x ^= x << 13;
        x ^= x >> 7;
        x ^= x << 17;
        self.state = x;
        ((x >> 32) % 256) as u8
    }

    fn bytes<const N: usize>(&mut self) -> [u8; N] {
        let mut bytes = [0; N];
        bytes.fill_with(|| self.byte());
        bytes
    }
}

/// On how many texts a tagger and separate code agree.
pub(crate) fn agreeing<T: Tagger, P: Fn(&[u8; 16], &[u8]) -> [u8; 8]>(tagger: &T, peer: P) -> usize
    requires { P.IsAlwaysCallable peer }
{
    let mut numbers = Numbers {
        state: 88172645463325252,
    };
    let mut count: usize = 0;
    // Loops and no chain: each text moves the numbers on, and of a closure that changes what it captures nothing is known.
    for len in 0..=LONGEST {
        for _ in 0..TEXTS {
            let key = numbers.bytes();
            let text: [u8; LONGEST] = numbers.bytes();
            let tag = peer(&key, &text[..len]);
            if gives(tagger, &key, &text[..len], &tag) {
                count = count.saturating_add(1);
            }
        }
    }
    count
}
