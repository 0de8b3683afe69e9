// What a command is answered, and how it is printed.
#![tactic(auto)]

ghost use Rattle.std.specs.Prelude.{◌≡◌, ◌<◌, ◌≤◌, [], ◌∷◌, ◌++◌, map, take, length, ◌+◌, nat_le, is_ok, OnOk, OnErr, if◌then◌else◌, Some};
ghost use Rattle.std.specs.Str.{IsUtf8};
ghost use Rattle.script.specs.Words.{hex_digit, hex_byte, hex_text};
ghost use Rattle.reply.specs.Replies.{said, kind_text, kind_letter, text_of, line_text};

use base::{Fault, ROW_BYTES};
use memory::RowKind;
use std::alloc::AllocError;
use std::fmt;
use std::fmt::Write;

// Room for a line of any part's rows, and for all other replies under a short name.
const SHORT_BYTES: usize = 256;

/// What a command is answered.
#[derive(Drop)]
pub enum Reply {
    Done,
    Refused(Fault),
    Misuse,
    Row(RowKind, [u8; ROW_BYTES]),
    Count(u32, u32),
    Rows(Vec<RowKind>),
    // A slot by its number, and a version. Any numbers are printed, so the slot is no enum here.
    Loaded(u8, u64),
}

// The bytes of a row, with two digits in lower case each.
#[derive(Clone, Copy)]
struct Hex<'a>(&'a [u8; ROW_BYTES]);

// Rows, with a letter for the kind of each.
#[derive(Clone, Copy)]
struct Letters<'a>(&'a [RowKind]);

// A digit of a byte, in lower case.
fn hex_digit(digit: u8) -> u8
    requires { digit < 16 }
    ensures { result ≡ hex_digit digit }
{
    if digit < 10 {
        b'0' + digit
    } else {
        b'a' - 10 + digit
    }
}

// The two digits of a byte.
fn hex_byte(byte: u8) -> [u8; 2]
    ensures { result ≡ hex_byte byte }
{
    [hex_digit(byte / 16), hex_digit(byte % 16)]
}

// The digits of a row's bytes, two for each.
fn hex_digits(bytes: &[u8; ROW_BYTES]) -> [[u8; 2]; ROW_BYTES]
    ensures digits { result ≡ map hex_byte bytes.now }
    ensures text { IsUtf8 (hex_text bytes.now) }
{
    let mut digits = [[0; 2]; ROW_BYTES];
    for (i, byte) in bytes.iter().enumerate() {
        digits[i] = hex_byte(*byte);
    }
    digits
}

impl<'a> fmt::Display for Hex<'a> {
    ghost output = { λ h. Some (hex_text h.0.now) };

    // One write for the whole row: a `write!` for each byte takes many times as long.
    fn fmt<W: fmt::Write>(&self, f: &mut fmt::Formatter<W>) -> fmt::Result {
        let digits = hex_digits(self.0);
        f.write_str(str::from_utf8(digits.as_flattened()).unwrap())
    }
}

// A row's kind, before its bytes. It is no `Display` of the kind: that is another crate's type, and printed in two ways.
fn kind_text(kind: RowKind) -> &'static str
    ensures { result.now ≡ kind_text kind }
{
    match kind {
        RowKind::Written => "written ",
        RowKind::Blank => "blank ",
        RowKind::Spoilt => "spoilt ",
    }
}

// A row's kind as a letter. A text and no `char`, which is encoded and tested for each row.
fn kind_letter(kind: RowKind) -> &'static str
    ensures { result.now ≡ kind_letter kind ∷ [] }
{
    match kind {
        RowKind::Written => "w",
        RowKind::Blank => "b",
        RowKind::Spoilt => "s",
    }
}

impl<'a> fmt::Display for Letters<'a> {
    ghost output = { λ l. Some (map kind_letter l.0.now) };

    fn fmt<W: fmt::Write>(&self, f: &mut fmt::Formatter<W>) -> fmt::Result {
        for kind in self.0 {
            f.write_str(kind_letter(*kind))?;
        }
        Ok(())
    }
}

/// The text of a reply, as it follows the command's name.
impl fmt::Display for Reply {
    ghost output = { λ r. Some (text_of (said r)) };

    fn fmt<W: fmt::Write>(&self, f: &mut fmt::Formatter<W>) -> fmt::Result {
        match self {
            Reply::Done => f.write_str("ok"),
            Reply::Refused(fault) => write!(
                f,
                "fault {} layer {} row {}",
                u8::from(fault.case),
                u8::from(fault.layer),
                fault.row_number()
            ),
            Reply::Misuse => f.write_str("misuse"),
            Reply::Row(kind, bytes) => write!(f, "{}{}", kind_text(*kind), Hex(bytes)),
            Reply::Count(count, ceiling) => write!(f, "{count} of {ceiling}"),
            Reply::Rows(kinds) => write!(f, "{}", Letters(kinds)),
            Reply::Loaded(slot, version) => write!(f, "slot {slot} version {version}"),
        }
    }
}

// A line while it is written. Most lines are short enough for it, and need no memory of the host but what they take at the end.
#[derive(Drop)]
struct ShortLine {
    bytes: [u8; SHORT_BYTES],
    len: usize,
    ghost within: { len ≤ 256 },
}

impl ShortLine {
    // Takes a command's name and its reply in, if they fit.
    #[tactic(auto, using(crate::proofs::Lines::then_text), unfolding(crate::specs::Replies::line_text))]
    fn print(&mut self, name: &[u8], reply: &Reply) -> fmt::Result
        ensures { OnOk result (take self.new.len self.new.bytes ≡ take self.old.len self.old.bytes ++ line_text name.now (said reply.now)) }
    {
        self.push(name)?;
        write!(self, ": {reply}\n")?;
        Ok(())
    }

    // Takes bytes in, if they fit.
    fn push(&mut self, bytes: &[u8]) -> fmt::Result
        ensures fits { is_ok result ≡ nat_le (self.old.len + length bytes.now) 256 }
        ensures taken { OnOk result (take self.new.len self.new.bytes ≡ take self.old.len self.old.bytes ++ bytes.now) }
        ensures kept { OnErr result (self.new ≡ self.old) }
    {
        if bytes.len() > SHORT_BYTES - self.len {
            return Err(fmt::Error);
        }
        let end = self.len + bytes.len();
        self.bytes[self.len..end].copy_from_slice(bytes);
        self.len = end;
        Ok(())
    }
}

impl fmt::Write for ShortLine {
    ghost write_str_gives = { λ s bytes t. take t.len t.bytes ≡ take s.len s.bytes ++ bytes };

    fn write_str(&mut self, s: &str) -> fmt::Result {
        self.push(s.as_bytes())
    }
}

/// Prints a command's name and its reply on a line of their own. Where memory fails, nothing is printed.
#[tactic(auto, unfolding(crate::specs::Replies::line_text))]
pub fn print(out: &mut Vec<u8>, name: &[u8], reply: &Reply) -> Result<(), AllocError>
    ensures { out.new.items ≡ (if is_ok result then out.old.items ++ line_text name.now (said reply.now) else out.old.items) }
{
    let mut line = ShortLine {
        bytes: [0; SHORT_BYTES],
        len: 0,
    };
    if line.print(name, reply).is_ok() {
        return out.extend_from_slice(&line.bytes[..line.len]);
    }
    let text = format!(in *out.allocator(); ": {reply}\n")?;
    out.reserve(name.len() + text.len())?;
    out.extend_from_slice(name)?;
    out.extend_from_slice(text.as_bytes())
}
