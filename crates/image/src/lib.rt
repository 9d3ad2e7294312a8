// The device's state for callers that are not written in Rattle: an image without enum and flags, and the device's calls on it.
#![tactic(auto)]

mod converting;

ghost use Rattle.std.specs.Prelude.{◌≡◌};
ghost use Rattle.device.specs.Promise.{received};
ghost use Rattle.image.specs.Image.{flag_of};
ghost use Rattle.image.specs.ImagePromise.{IsTakenOf, imaged_by, StartsImage, ReceivesImage, TimesOutImage, RestartsImage};

use answer::Refusal;
use device::Device;

// Every byte of a device. `state` is 0 to 4, `first` the first check byte in state 4 and else 0; spoiled, opened, over and any are 0 or 1.
#[repr(C)]
#[derive(Clone, Copy, Debug, PartialEq, Eq)]
pub struct Image {
    pub state: u8,
    pub first: u8,
    pub spoiled: u8,
    pub times: u8,
    pub opened: u8,
    pub network: u8,
    pub over: u8,
    pub any: u8,
    pub count: usize,
    pub length: usize,
    pub liveused: usize,
    pub liverecords: usize,
    pub loadused: usize,
    pub loadrecords: usize,
    pub payload: [u8; 19],
    pub version: [u8; 10],
    pub versions: [u8; 1000],
    pub store: [u8; 2048],
}

// The refusal's number or 0, how many bytes of the piece were taken, and how many were written to the start of `out`. C knows no Result.
#[repr(C)]
#[derive(Clone, Copy, Debug, PartialEq, Eq)]
pub struct Taken {
    pub refusal: u8,
    pub taken: usize,
    pub written: usize,
}

// A flag as a byte.
pub fn flag(b: bool) -> u8
    ensures { result ≡ flag_of b }
{
    u8::from(b)
}

impl From<Result<device::Taken, Refusal>> for Taken {
    ghost from_gives = { IsTakenOf };

    fn from(answer: Result<device::Taken, Refusal>) -> Taken {
        match answer {
            Ok(done) => Taken {
                refusal: 0,
                taken: done.taken,
                written: done.written,
            },
            Err(refusal) => Taken {
                refusal: u8::from(refusal),
                taken: 0,
                written: 0,
            },
        }
    }
}

// Brings the image up to date after a call, unless it was refused.
fn answered(image: &mut Image, device: Device, got: Result<device::Taken, Refusal>) -> Taken
    ensures { record { image = image.new; answer = result } ≡ imaged_by image.old (received device got) }
{
    if got.is_ok() {
        *image = Image::from(device);
    }
    Taken::from(got)
}

// Starts a fresh device. A refused call leaves the image as it was. The calls are known by these names, and are no methods.
pub fn start_image(image: &mut Image, live: &mut [u8], loading: &mut [u8]) -> Taken
    ensures { StartsImage image.old live.old loading.old (record { image = image.new; answer = result }) live.new loading.new }
{
    let (device, started) = device::start(live, loading);
    answered(image, device, started.and(Ok(device::SILENT)))
}

// Takes a piece of the line's bytes. Here and below a call of its own for each of the device's: a closure that holds the buffers would have to promise
// what they become.
pub fn receive_image(
    image: &mut Image,
    piece: &[u8],
    out: &mut [u8],
    live: &mut [u8],
    loading: &mut [u8],
) -> Taken
    ensures { ReceivesImage image.old piece.now out.old live.old loading.old (record { image = image.new; answer = result }) out.new live.new loading.new }
{
    let mut device = Device::from(*image);
    let got = device::receive(&mut device, piece, out, live, loading);
    answered(image, device, got)
}

// A timeout.
pub fn timeout_image(
    image: &mut Image,
    out: &mut [u8],
    live: &mut [u8],
    loading: &mut [u8],
) -> Taken
    ensures { TimesOutImage image.old out.old live.old loading.old (record { image = image.new; answer = result }) out.new live.new loading.new }
{
    let mut device = Device::from(*image);
    let got = device::timeout(&mut device, out, live, loading);
    answered(image, device, got)
}

// A restart.
pub fn restart_image(
    image: &mut Image,
    out: &mut [u8],
    live: &mut [u8],
    loading: &mut [u8],
) -> Taken
    ensures { RestartsImage image.old out.old live.old loading.old (record { image = image.new; answer = result }) out.new live.new loading.new }
{
    let mut device = Device::from(*image);
    let got = device::restart(&mut device, out, live, loading);
    answered(image, device, got)
}
