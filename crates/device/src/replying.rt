// The bytes that are answered: CAN, NAK, and a second check byte (scope paper, section Reception). Each function tells how many bytes it wrote.
ghost use Rattle.std.specs.Prelude.{◌≡◌, true, [], ◌∷◌, ◌≤◌, ◌<◌, length, take};
ghost use Rattle.packet.specs.Packet.{packet_of};
ghost use Rattle.state.specs.State.{state_as, can_resend};
ghost use Rattle.device.specs.Machine.{good_packet};
ghost use Rattle.gathering.specs.Gathering.{asks_in};
ghost use Rattle.device.specs.Steps.{cancelled, resent, ran, completed, replied_in, Says, Does, Sends};
ghost use Rattle.device.specs.Steps.{refused as refusedState};

use execution::Response;
use packet::write_packet;
use reception::{Line, Reception};
use state::{Device, Held};

// Writes the response's packet to the start of `out`.
fn send(response: &Response, out: &mut [u8]) -> usize
    requires { (1 ≤ response.now.length) × (response.now.length ≤ 19) × (63 ≤ length out.old) }
    ensures { Sends (packet_of (take response.now.length response.now.payload)) out.old result out.new }
{
    write_packet(&response.payload[..response.length], out).unwrap()
}

// Writes 06h and the response's packet to the start of `out`.
fn acknowledge(response: &Response, out: &mut [u8]) -> usize
    requires { (1 ≤ response.now.length) × (response.now.length ≤ 19) × (64 ≤ length out.old) }
    ensures { Sends (0x06 ∷ packet_of (take response.now.length response.now.payload)) out.old result out.new }
{
    out[0] = 0x06;
    send(response, &mut out[1..]) + 1
}

// CAN: 04h, and nothing is held.
fn cancel(device: &mut Device, out: &mut [u8]) -> usize
    requires { 64 ≤ length out.old }
    ensures { Says (cancelled (state_as device.old [] [])) out.old (record { device = device.new; written = result }) out.new }
{
    device.set_held(Held::nothing());
    out[0] = 0x04;
    1
}

// NAK: the held response packet again, without 06h.
fn resend(device: &mut Device, out: &mut [u8]) -> usize
    requires { (64 ≤ length out.old) × (1 ≤ device.old.held.response.length) × (device.old.held.response.length ≤ 19) × (device.old.held.times < 3) }
    ensures { Says (resent (state_as device.old [] [])) out.old (record { device = device.new; written = result }) out.new }
{
    device.held.times += 1;
    send(&device.held.response, out)
}

// A packet that is not good: 15h, and the held response stays.
fn refuse(device: &mut Device, out: &mut [u8]) -> usize
    requires { 64 ≤ length out.old }
    ensures { Says (refusedState (state_as device.old [] [])) out.old (record { device = device.new; written = result }) out.new }
{
    device.set_line(Line::idle());
    out[0] = 0x15;
    1
}

// A good packet: its command is executed, 06h and the response's packet are written, and the response is held.
fn run(device: &mut Device, out: &mut [u8], live: &mut [u8], loading: &mut [u8]) -> usize
    requires { (64 ≤ length out.old) × (device.old.count ≤ 2048) }
    ensures { Does (ran (state_as device.old live.old loading.old)) out.old (record { device = device.new; written = result }) out.new live.new loading.new }
{
    let payload = &device.store[..device.count];
    let response = device.tables.execute(payload, live, loading);
    device.set_line(Line::idle());
    device.set_held(Held { response, times: 0 });
    acknowledge(&response, out)
}

// Whether a complete packet is good: not spoiled, not empty, and with the payload's check.
#[tactic(auto, unfolding(crate::specs::Machine::good_packet))]
fn is_good(spoiled: bool, payload: &[u8], first: u8, second: u8) -> bool
    ensures { result ≡ good_packet spoiled payload.now first second }
{
    !spoiled & (!payload.is_empty() & ([first, second] == crc16::check_of(payload).to_be_bytes()))
}

// The second check byte: the packet is complete.
fn complete(
    device: &mut Device,
    first: u8,
    second: u8,
    out: &mut [u8],
    live: &mut [u8],
    loading: &mut [u8],
) -> usize
    requires { (64 ≤ length out.old) × (device.old.count ≤ 2048) }
    ensures { Does (completed (state_as device.old live.old loading.old) first second) out.old (record { device = device.new; written = result }) out.new live.new loading.new }
{
    let payload = &device.store[..device.count];
    if is_good(device.spoiled, payload, first, second) {
        run(device, out, live, loading)
    } else {
        refuse(device, out)
    }
}

// Answers the byte `b`.
pub(crate) fn reply_to(
    device: &mut Device,
    b: u8,
    out: &mut [u8],
    live: &mut [u8],
    loading: &mut [u8],
) -> usize
    requires { (64 ≤ length out.old) × (device.old.count ≤ 2048) × (device.old.held.response.length ≤ 19) × (asks_in device.old.reception (can_resend device.old.held) b ≡ true) }
    ensures { Does (replied_in device.old.reception (state_as device.old live.old loading.old) b) out.old (record { device = device.new; written = result }) out.new live.new loading.new }
{
    match device.reception {
        Reception::Idle => {
            if b == 0x18 {
                cancel(device, out)
            } else {
                resend(device, out)
            }
        }
        Reception::SecondCheck(first) => complete(device, first, b, out, live, loading),
        _ => 0,
    }
}
