//! The words of a line: numbers and names, each behind a space.
ghost use Rattle.std.specs.Prelude.{◌≡◌, ℕ, ◌+◌, ◌≤◌, List, [], ◌∷◌, ◌++◌, All, length, codes, decimal};
ghost use Rattle.std.specs.Fmt.{signed_decimal};
ghost use Rattle.sim_trace.specs.Texts.{AreNamesShort, kind_word, end_word, port_word};

use crate::buffer::LineBuf;
use itoa::Buffer;
use sim_types::{End, EventKind, Name};

/// The name of the port, which is empty where there is none.
pub(crate) fn port_word<'a>(ports: &'a [Name], port: u32) -> &'a [u8]
    requires { AreNamesShort ports.now }
    ensures word { result.now ≡ port_word ports.now port }
    ensures short { length result.now ≤ 32 }
{
    match ports.get(port as usize) {
        Some(name) => name.bytes(),
        None => b"",
    }
}

/// Appends a space and the number.
pub(crate) fn append_number(number: u64, out: &mut LineBuf)
    requires { length out.old + 21 ≤ 256 }
    ensures items { out.new ≡ out.old ++ 32 ∷ decimal number }
    ensures len { length out.new ≤ length out.old + 21 }
{
    out.push(b' ');
    out.append_digits(number);
}

/// Appends a space and the number, which may be below zero.
pub(crate) fn append_signed(number: i64, out: &mut LineBuf)
    requires { length out.old + 22 ≤ 256 }
    ensures items { out.new ≡ out.old ++ 32 ∷ signed_decimal number }
    ensures len { length out.new ≤ length out.old + 22 }
{
    out.push(b' ');
    append_signed_digits(number, out);
}

/// Appends the number, which may be below zero. Most are a digit, which is put there at once.
#[tactic(auto, using(itoa::proofs::Decimal::minus_first, std::proofs::lemmas::Fmt::decimal_digit))]
pub(crate) fn append_signed_digits(number: i64, out: &mut LineBuf)
    requires { length out.old + 21 ≤ 256 }
    ensures items { out.new ≡ out.old ++ signed_decimal number }
    ensures len { length out.new ≤ length out.old + 21 }
{
    if (0..10).contains(&number) {
        out.push(b'0' + number as u8);
        return;
    }
    if number < 0 {
        out.push(b'-');
    }
    out.append_digits(number.unsigned_abs());
}

/// Appends a space and the sum, which may be below zero and take more than 64 bits.
pub(crate) fn append_sum(sum: i128, out: &mut LineBuf)
    requires { length out.old + 41 ≤ 256 }
    ensures items { out.new ≡ out.old ++ 32 ∷ signed_decimal sum }
    ensures len { length out.new ≤ length out.old + 41 }
{
    let mut digits = Buffer::new();
    append_word(digits.format(sum).as_bytes(), out);
}

/// Appends a space and the word.
pub(crate) fn append_word(word: &[u8], out: &mut LineBuf)
    requires { length out.old + 1 + length word.now ≤ 256 }
    ensures items { out.new ≡ out.old ++ 32 ∷ word.now }
    ensures len { length out.new ≡ length out.old + 1 + length word.now }
{
    out.push(b' ');
    out.append(word);
}

/// Appends what the kind of an event is called, with a space in front of it and one behind.
pub(crate) fn append_kind(kind: EventKind, out: &mut LineBuf)
    requires { length out.old + 11 ≤ 256 }
    ensures items { out.new ≡ out.old ++ 32 ∷ kind_word kind ++ 32 ∷ [] }
    ensures len { length out.new ≤ length out.old + 11 }
{
    match kind {
        EventKind::Init => out.append(b" init "),
        EventKind::Timeout => out.append(b" timeout "),
        EventKind::Plain => out.append(b" event "),
        EventKind::Process => out.append(b" process "),
        EventKind::Interrupt => out.append(b" interrupt "),
        EventKind::Cond => out.append(b" cond "),
        EventKind::Request => out.append(b" request "),
        EventKind::Release => out.append(b" release "),
        EventKind::Put => out.append(b" put "),
        EventKind::Get => out.append(b" get "),
        EventKind::Stop => out.append(b" stop "),
    }
}

/// How a run ended.
pub(crate) fn end_word(end: End) -> &'static [u8]
    ensures word { result.now ≡ end_word end }
    ensures short { length result.now ≤ 7 }
{
    match end {
        End::Empty => b"empty",
        End::Until => b"until",
        End::Crash => b"crash",
        End::Limit => b"limit",
        End::Starved => b"starved",
    }
}
