// A device with the two stores that go with it, for programs that have none of their own to lend.
#![tactic(auto)]

ghost use Rattle.std.specs.Prelude.{◌≡◌, ◌≤◌, length, IfOk};
ghost use Rattle.device.specs.Machine.{fresh};
ghost use Rattle.device.specs.Events.Event.{timeout as timeoutEvent, restart as restartEvent};
ghost use Rattle.device.specs.Between.{state_of};
ghost use Rattle.device.specs.Promise.{received, after_piece, after_event, Answers};
ghost use Rattle.board.specs.Board.{state_on};

use answer::Refusal;
use device::{Device, Taken};

// A device, and its live and loading store. A call on it is refused as the device's is.
#[derive(Clone, Debug, PartialEq, Eq, Drop)]
pub struct Board {
    pub device: Device,
    pub live: [u8; 32768],
    pub loading: [u8; 32768],
}

// A store for records. Its `ensures` is all that a caller has to know of so long a list.
fn empty_store() -> [u8; 32768]
    ensures { 32768 ≡ length result }
{
    [0; 32768]
}

impl Board {
    // A fresh device and stores with no record.
    pub fn new() -> Board
        ensures { state_on result ≡ state_of fresh }
    {
        let mut live = empty_store();
        let mut loading = empty_store();
        let (device, started) = device::start(&mut live, &mut loading);
        started.unwrap();
        Board {
            device,
            live,
            loading,
        }
    }

    // Takes a piece of the line's bytes, up to the one that completes a reply, or all.
    pub fn receive(&mut self, piece: &[u8], out: &mut [u8]) -> Result<Taken, Refusal>
        ensures promise { Answers (state_on self.old) (after_piece piece.now (state_on self.old)) out.old (received self.new.device result) out.new self.new.live self.new.loading }
        ensures within { IfOk result (λ done. (done.taken ≤ length piece.now) × (done.written ≤ length out.old)) }
        ensures gets_on { IfOk result (λ done. 1 ≤ length piece.now → 1 ≤ done.taken) }
    {
        device::receive(
            &mut self.device,
            piece,
            out,
            &mut self.live,
            &mut self.loading,
        )
    }

    // A timeout.
    pub fn timeout(&mut self, out: &mut [u8]) -> Result<Taken, Refusal>
        ensures { Answers (state_on self.old) (after_event timeoutEvent (state_on self.old)) out.old (received self.new.device result) out.new self.new.live self.new.loading }
    {
        device::timeout(&mut self.device, out, &mut self.live, &mut self.loading)
    }

    // A restart.
    pub fn restart(&mut self, out: &mut [u8]) -> Result<Taken, Refusal>
        ensures { Answers (state_on self.old) (after_event restartEvent (state_on self.old)) out.old (received self.new.device result) out.new self.new.live self.new.loading }
    {
        device::restart(&mut self.device, out, &mut self.live, &mut self.loading)
    }
}
