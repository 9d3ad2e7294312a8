// Which command a payload is, by its name and layout (scope paper, section Commands).
#![tactic(auto)]

ghost use Rattle.std.specs.Prelude.{◌≡◌, ◌≤◌};
ghost use Rattle.command.specs.Texts.{starts, all_text};
ghost use Rattle.command.specs.Command.{tlr_good, row_of, gts_of, tli_of, tlr_of, command_of};
ghost use Rattle.command.specs.Steps.{network_in};

use answer::digits::{is_text, three_digits, two_digits};
use records::block_good;

// The command of a payload. A network is that of the command; TLI's version is the ten bytes from place 8 on, and TLR's block all from place 6 on.
#[derive(Clone, Copy, Debug, PartialEq, Eq)]
pub enum Command {
    Opn,
    Gts(u8),
    GtsWrong,
    Tli(u8),
    TliWrong,
    Tlr,
    TlrWrong,
    Tle,
    Unknown,
}

// Whether `p` starts with `s`: a call of its own, whose promise is in the table's words.
#[tactic(auto, using(crate::proofs::Texts::starts_same))]
pub fn starts_with(p: &[u8], s: &[u8]) -> bool
    ensures { result ≡ starts s.now p.now }
{
    p.starts_with(s)
}

// Whether each byte is one of a text. No byte ends the walk, so that many are taken at a time.
#[tactic(auto, using(crate::proofs::Texts::text_more, crate::proofs::Texts::text_done))]
pub fn all_text(s: &[u8]) -> bool
    ensures { result ≡ all_text s.now }
{
    let mut good = true;
    for &b in s {
        good &= is_text(b);
    }
    good
}

// The network of a payload of `len` bytes: `head`, which is a name and a length, two digits, and text; none where it has another layout.
#[tactic(auto, using(crate::proofs::Layouts::other_length, crate::proofs::Layouts::other_head, crate::proofs::Layouts::other_digits, crate::proofs::Layouts::network_told))]
fn network_in(p: &[u8], head: &[u8], len: usize) -> Option<u8>
    requires { 8 ≤ len }
    ensures { result ≡ network_in head.now len p.now }
{
    if p.len() != len {
        return None;
    }
    if !starts_with(p, head) {
        return None;
    }
    let network = two_digits(&p[6..])?;
    all_text(&p[8..]).then_some(network)
}

// Whether `p`, whose name is TLR, has its layout.
#[tactic(auto, using(crate::proofs::Layouts::tlr_short, crate::proofs::Layouts::tlr_untold, crate::proofs::Layouts::tlr_told))]
fn tlr_good(p: &[u8]) -> bool
    ensures { result ≡ tlr_good p.now }
{
    if p.len() < 6 {
        return false;
    }
    let Some(told) = three_digits(&p[3..]) else {
        return false;
    };
    (told == p.len() - 6) & block_good(&p[6..])
}

// The command of a payload that starts with GTS. Here and for TLI a function of its own, since the names, lengths and cases that differ are all there is.
#[tactic(auto, using(crate::proofs::Layouts::gts_some, crate::proofs::Layouts::gts_none))]
fn gts(p: &[u8]) -> Command
    ensures { result ≡ gts_of p.now }
{
    match network_in(p, b"GTS002", 8) {
        Some(network) => Command::Gts(network),
        None => Command::GtsWrong,
    }
}

// The command of a payload that starts with TLI, whose version has ten bytes.
#[tactic(auto, using(crate::proofs::Layouts::tli_some, crate::proofs::Layouts::tli_none))]
fn tli(p: &[u8]) -> Command
    ensures { result ≡ tli_of p.now }
{
    match network_in(p, b"TLI012", 18) {
        Some(network) => Command::Tli(network),
        None => Command::TliWrong,
    }
}

// The command of a payload that starts with TLR.
fn tlr(p: &[u8]) -> Command
    ensures { result ≡ tlr_of p.now }
{
    if tlr_good(p) {
        Command::Tlr
    } else {
        Command::TlrWrong
    }
}

// Which command `payload` is.
#[tactic(auto, unfolding(crate::specs::Command::command_of, crate::specs::Texts::starts))]
pub fn command_of(payload: &[u8]) -> Command
    ensures { row_of result ≡ row_of (command_of payload.now) }
{
    match payload {
        b"OPN" => Command::Opn,
        b"TLE" => Command::Tle,
        [b'G', b'T', b'S', ..] => gts(payload),
        [b'T', b'L', b'I', ..] => tli(payload),
        [b'T', b'L', b'R', ..] => tlr(payload),
        _ => Command::Unknown,
    }
}
