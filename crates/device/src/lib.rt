// The device end of the line (scope paper, sections Reception, Commands and Numbered refusals of calls).
#![tactic(auto)]

mod replying;

ghost use Rattle.std.specs.Prelude.{◌≡◌, true, [], ◌≤◌, length};
ghost use Rattle.state.specs.State.{state_as};
ghost use Rattle.state.specs.Sound.{is_sized, sound};
ghost use Rattle.state.specs.Claims.{Arrays};
ghost use Rattle.device.specs.Machine.{fresh};
ghost use Rattle.device.specs.Events.Event.{timeout as timeoutEvent, restart as restartEvent};
ghost use Rattle.device.specs.Between.{state_of};
ghost use Rattle.device.specs.Promise.{received, started, after_piece, after_event, Gives, Answers, Starts};

use answer::Refusal;
use execution::Tables;
use gathering::gather;
use reception::{Line, Reception};
use records::zero_store;
use replying::reply_to;
use state::sizes_good;
pub use state::{Device, Held};

// How many bytes of the piece a call took, and how many it wrote to the start of `out`.
#[derive(Clone, Copy, Debug, PartialEq, Eq)]
pub struct Taken {
    pub taken: usize,
    pub written: usize,
}

// A call that takes and writes nothing.
pub const SILENT: Taken = Taken {
    taken: 0,
    written: 0,
};

// A fresh device: between packets, its tables empty, and no response to send again.
fn fresh_device() -> Device
    ensures { result ≡ (state_of fresh).device }
{
    Device {
        reception: Reception::Idle,
        spoiled: false,
        count: 0,
        store: [0; 2048],
        held: Held::nothing(),
        tables: Tables::fresh(),
    }
}

// Makes a fresh device, and zeroes both stores. Refusal: 2, which leaves the stores; the device is the fresh one all the same. The calls are functions,
// as the type of a device is another crate's.
pub fn start(live: &mut [u8], loading: &mut [u8]) -> (Device, Result<(), Refusal>)
    ensures { Starts live.old loading.old (started result.0 result.1) live.new loading.new }
{
    let device = fresh_device();
    if !sizes_good(live, loading) {
        return (device, Err(Refusal::WrongSize));
    }
    zero_store(live);
    zero_store(loading);
    (device, Ok(()))
}

// Takes the bytes of `piece` up to the one that completes a reply, or all of them.
fn take_piece(
    device: &mut Device,
    piece: &[u8],
    out: &mut [u8],
    live: &mut [u8],
    loading: &mut [u8],
) -> Taken
    requires { (64 ≤ length out.old) × (is_sized (state_as device.old live.old loading.old) ≡ true) × (sound (state_as device.old live.old loading.old) ≡ true) × Arrays device.old }
    ensures { Gives 0 (after_piece piece.now (state_as device.old live.old loading.old)) out.old (received device.new (Ok result)) out.new live.new loading.new }
{
    let resend = device.held.can_resend();
    let got = gather(device.line(), &mut device.store, piece, resend);
    device.set_line(got.line);
    let written = match got.asked {
        Some(b) => reply_to(device, b, out, live, loading),
        None => 0,
    };
    Taken {
        taken: got.taken,
        written,
    }
}

// Takes a piece of the line's bytes, up to the one that completes a reply, or all. Refusals in this order: 1, 2, 3.
pub fn receive(
    device: &mut Device,
    piece: &[u8],
    out: &mut [u8],
    live: &mut [u8],
    loading: &mut [u8],
) -> Result<Taken, Refusal>
    ensures { Answers (state_as device.old live.old loading.old) (after_piece piece.now (state_as device.old live.old loading.old)) out.old (received device.new result) out.new live.new loading.new }
{
    device.judge(out.len(), live, loading)?;
    Ok(take_piece(device, piece, out, live, loading))
}

// The line was silent for too long: reception goes idle. Refusals: 1, 2, 3.
pub fn timeout(
    device: &mut Device,
    out: &mut [u8],
    live: &mut [u8],
    loading: &mut [u8],
) -> Result<Taken, Refusal>
    ensures { Answers (state_as device.old live.old loading.old) (after_event timeoutEvent (state_as device.old live.old loading.old)) out.old (received device.new result) out.new live.new loading.new }
{
    device.judge(out.len(), live, loading)?;
    device.set_line(Line::idle());
    Ok(SILENT)
}

// The board restarted: reception idle, held response forgotten, open load dropped. Refusals: 1, 2, 3.
pub fn restart(
    device: &mut Device,
    out: &mut [u8],
    live: &mut [u8],
    loading: &mut [u8],
) -> Result<Taken, Refusal>
    ensures { Answers (state_as device.old live.old loading.old) (after_event restartEvent (state_as device.old live.old loading.old)) out.old (received device.new result) out.new live.new loading.new }
{
    device.judge(out.len(), live, loading)?;
    device.set_line(Line::idle());
    device.set_held(Held::nothing());
    device.tables.drop_load(loading);
    Ok(SILENT)
}
