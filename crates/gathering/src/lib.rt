// Bytes up to one that is answered: they move the line and fill the reception store (scope paper, section Reception). Nothing is answered in here.
#![tactic(auto)]

ghost use Rattle.std.specs.Prelude.{◌≡◌};
ghost use Rattle.gathering.specs.Gathering.{asks_in, placed_in, gathered, Gathers};

use reception::{Line, Reception, Told};

// Where the line is before the byte that is answered, how many bytes are taken with it, and that byte, if one is answered.
#[derive(Clone, Copy, Debug, PartialEq, Eq)]
pub struct Gathered {
    pub line: Line,
    pub taken: usize,
    pub asked: Option<u8>,
}

// Whether `b` is answered: CAN between packets, NAK too where there is something to send again, and a second check byte.
fn asks(line: Line, b: u8, resend: bool) -> bool
    ensures { result ≡ asks_in line.state resend b }
{
    match line.state {
        Reception::Idle => (b == 0x18) | ((b == 0x15) & resend),
        Reception::SecondCheck(_) => true,
        _ => false,
    }
}

// Puts a payload byte in its place. (`get_mut` would leave a proof the store's length alone, and no byte of it.)
#[tactic(auto, using(crate::proofs::Kept::set_past))]
fn place(store: &mut [u8], told: Told)
    ensures { store.new ≡ placed_in store.old told }
{
    if let Told::Payload(at, b) = told {
        if at < store.len() {
            store[at] = b;
        }
    }
}

// Takes bytes up to the one that is answered, or all of them.
pub fn gather(line: Line, store: &mut [u8], piece: &[u8], resend: bool) -> Gathered
    ensures { Gathers (gathered resend line store.old 0 piece.now) result store.new }
{
    let mut at = line;
    for (i, &b) in piece.iter().enumerate() {
        if asks(at, b, resend) {
            return Gathered {
                line: at,
                taken: i + 1,
                asked: Some(b),
            };
        }
        let took = at.take(b);
        place(store, took.told);
        at = took.line;
    }
    Gathered {
        line: at,
        taken: piece.len(),
        asked: None,
    }
}
