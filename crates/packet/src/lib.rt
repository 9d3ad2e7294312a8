// The packet of a payload, written and read (scope paper, section Packet).
#![tactic(auto)]

ghost use Rattle.std.specs.Prelude.{◌≡◌, ◌+◌, ◌/◌, ◌%◌, ◌≤◌, ◌∷◌, [], length};
ghost use Rattle.answer.specs.Answers.{Gives, over};
ghost use Rattle.answer.specs.Laid.{pasted, Puts};
ghost use Rattle.packet.specs.Substitution.{sent, stuff, unstuff};
ghost use Rattle.packet.specs.Packet.{packet_of, write_packet, before, judged, rest_of, read_packet};
ghost use Rattle.packet.specs.Steps.{pair_of, symbols, payload_in, body_of, Room, Stuffs};

use answer::Refusal;
use memchr::memchr;

// Where the next byte of a packet goes, and the check's register after the payload.
#[derive(Drop)]
struct Stuffed {
    at: usize,
    register: u16,
}

// ---- the writer

// How many bytes `b` is sent as. With no branch between, so that the sum over a payload is taken many bytes at a time.
#[tactic(auto, unfolding(crate::specs::Substitution::sent))]
fn sent_length(b: u8) -> usize
    ensures { result ≡ length (sent b) }
{
    if (b == 0x13) | ((b == 0x16) | (b == 0x17)) {
        2
    } else {
        1
    }
}

// How many bytes the packet of `payload` has.
fn packet_length(payload: &[u8]) -> usize
    requires { length payload.now ≤ 2048 }
    ensures { result ≡ length (packet_of payload.now) }
{
    4 + payload.iter().map(|&b| sent_length(b)).sum::<usize>()
}

// Puts 13h and `y` at `at`. By index: two single bytes, and no loop.
fn put_pair(out: &mut [u8], at: usize, y: u8) -> usize
    requires { at + 2 ≤ length out.old }
    ensures { Puts out.old at (0x13 ∷ y ∷ []) result out.new }
{
    out[at] = 0x13;
    out[at + 1] = y;
    at + 2
}

// Puts what `b` is sent as at `at`.
#[tactic(auto, using(answer::proofs::Laid::set_one), unfolding(crate::specs::Substitution::sent))]
fn put_sent(out: &mut [u8], at: usize, b: u8) -> usize
    requires { at + length (sent b) ≤ length out.old }
    ensures { Puts out.old at (sent b) result out.new }
{
    match b {
        0x13 => put_pair(out, at, 0x33),
        0x16 => put_pair(out, at, 0x36),
        0x17 => put_pair(out, at, 0x37),
        _ => {
            out[at] = b;
            at + 1
        }
    }
}

// Puts the packet of `payload` over the start of `out`.
fn put_packet(payload: &[u8], out: &mut [u8])
    requires { length (packet_of payload.now) ≤ length out.old }
    ensures { out.new ≡ over (packet_of payload.now) out.old }
{
    let Stuffed { at, register } = put_stuffed(payload, out);
    put_ending(out, at, crc16::step(register, 0x17));
}

// Puts SYN and the payload with substitutions over the start of `out`. The check meets each byte before its substitution.
fn put_stuffed(payload: &[u8], out: &mut [u8]) -> Stuffed
    requires { 1 + length (stuff payload.now) ≤ length out.old }
    ensures { Stuffs payload.now out.old result out.new }
{
    out[0] = 0x16;
    let mut at = 1;
    let mut register = 0;
    for &b in payload {
        register = crc16::step(register, b);
        at = put_sent(out, at, b);
    }
    Stuffed { at, register }
}

// Puts ETB and the two bytes of `c` at `at`. By index, as above.
#[tactic(auto, using(answer::proofs::Laid::set_three))]
fn put_ending(out: &mut [u8], at: usize, c: u16)
    requires { at + 3 ≤ length out.old }
    ensures { out.new ≡ pasted out.old at (0x17 ∷ c / 256 ∷ c % 256 ∷ []) }
{
    let [high, low] = c.to_be_bytes();
    out[at] = 0x17;
    out[at + 1] = high;
    out[at + 2] = low;
}

// Writes the packet of `payload` to the start of `out`. Refusals in this order: 10, 11, 1.
pub fn write_packet(payload: &[u8], out: &mut [u8]) -> Result<usize, Refusal>
    ensures { Gives (write_packet payload.now) out.old result out.new }
{
    if payload.is_empty() {
        return Err(Refusal::Empty);
    }
    if 2048 < payload.len() {
        return Err(Refusal::TooLong);
    }
    let length = packet_length(payload);
    if out.len() < length {
        return Err(Refusal::NoRoom);
    }
    put_packet(payload, out);
    Ok(length)
}

// ---- the reader

// What a pair that ends with `y` stands for: none, where it is a bad pair.
#[tactic(auto, unfolding(crate::specs::Steps::pair_of))]
fn pair(y: u8) -> Option<u8>
    ensures { result ≡ pair_of y }
{
    match y {
        0x33 => Some(0x13),
        0x36 => Some(0x16),
        0x37 => Some(0x17),
        _ => None,
    }
}

// What the bytes and pairs of a body stand for, one after another.
#[derive(Drop)]
struct Symbols<'a> {
    rest: &'a [u8],
}

impl<'a> Iterator for Symbols<'a> {
    ghost use Rattle.std.specs.Iterator.{item_count, YieldsFirst};

    type Item = Option<u8>;

    ghost next_gives = { YieldsFirst (λ s. symbols s.rest.now) };

    ghost remaining = { item_count (λ s. symbols s.rest.now) };

    // By `split_first`: by slice patterns a packet takes a third more time to read.
    #[tactic(auto, unfolding(crate::specs::Steps::symbols, crate::specs::Steps::plain_of))]
    fn next(&mut self) -> Option<Option<u8>> {
        let (&x, rest) = self.rest.split_first()?;
        self.rest = rest;
        match x {
            0x13 => {
                let Some((&y, rest)) = self.rest.split_first() else {
                    return Some(None);
                };
                self.rest = rest;
                Some(pair(y))
            }
            0x16 | 0x17 => Some(None),
            _ => Some(Some(x)),
        }
    }
}

// What a body that is sent for a payload is: how many bytes the payload has, and the check's register after them.
#[derive(Drop)]
struct Body {
    count: usize,
    register: u16,
}

// Judges `body` and writes nothing: a refusal must leave the caller's buffer as it was.
fn judge(body: &[u8]) -> Option<Body>
    ensures { result ≡ body_of (unstuff body.now) }
{
    let mut count = 0;
    let mut register = 0u16;
    for symbol in (Symbols { rest: body }) {
        register = crc16::step(register, symbol?);
        count += 1;
    }
    Some(Body { count, register })
}

// Undoes the substitutions of a body that was judged and stands for `count` bytes: the second byte of each pair is 20h over the payload byte.
// By `Symbols`, which judges once more, a packet takes a sixth more time to read; and by `count`, so that one number tells the place in `out` and
// the end, two bytes are undone at a time.
fn undo(body: &[u8], count: usize, out: &mut [u8])
    requires room { Room (unstuff body.now) out.old }
    requires counted { count ≡ length (payload_in (unstuff body.now)) }
    ensures { out.new ≡ over (payload_in (unstuff body.now)) out.old }
{
    let mut left = body;
    for n in 0..count {
        let x = left[0];
        if x == 0x13 {
            out[n] = left[1] - 0x20;
            left = &left[2..];
        } else {
            out[n] = x;
            left = &left[1..];
        }
    }
}

// Gives the payload that `body` is sent for, where `a` and `b` are its check.
fn read_body(body: &[u8], a: u8, b: u8, out: &mut [u8]) -> Result<usize, Refusal>
    ensures { Gives (judged (unstuff body.now) a b) out.old result out.new }
{
    let Body { count, register } = judge(body).ok_or(Refusal::NoPacket)?;
    if count == 0 {
        return Err(Refusal::Empty);
    }
    if 2048 < count {
        return Err(Refusal::TooLong);
    }
    let check = crc16::step(register, 0x17);
    if [a, b] != check.to_be_bytes() {
        return Err(Refusal::WrongCheck);
    }
    if out.len() < count {
        return Err(Refusal::NoRoom);
    }
    undo(body, count, out);
    Ok(count)
}

// Gives the payload of what follows SYN.
#[tactic(auto, using(answer::proofs::Laws::gives_refused, answer::proofs::Laws::gives_as, crate::proofs::Closing::rest_is, crate::proofs::Closing::rest_not))]
fn read_rest(rest: &[u8], out: &mut [u8]) -> Result<usize, Refusal>
    ensures { Gives (rest_of rest.now) out.old result out.new }
{
    let Some(n) = memchr(0x17, rest) else {
        return Err(Refusal::NoPacket);
    };
    match rest.split_at(n) {
        (body, [_, a, b]) => read_body(body, *a, *b, out),
        _ => Err(Refusal::NoPacket),
    }
}

// Writes the payload of the packet `bytes` to the start of `out`. Refusals in this order: 12, 10, 11, 13, 1.
#[tactic(auto, using(answer::proofs::Laws::gives_refused, answer::proofs::Laws::gives_as, crate::proofs::Judging::read_empty, crate::proofs::Judging::read_syn, crate::proofs::Judging::read_other))]
pub fn read_packet(bytes: &[u8], out: &mut [u8]) -> Result<usize, Refusal>
    ensures { Gives (read_packet bytes.now) out.old result out.new }
{
    match bytes {
        [0x16, rest @ ..] => read_rest(rest, out),
        _ => Err(Refusal::NoPacket),
    }
}
