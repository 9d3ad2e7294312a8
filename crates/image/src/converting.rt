// A device from its image, and the image of a device.
ghost use Rattle.std.specs.Prelude.{◌≡◌, not, eqb};
ghost use Rattle.reception.specs.Cases.{code_of, first_of, reception_of};
ghost use Rattle.image.specs.Image.{is_image, count_in, device_of, IsImageOf, IsDeviceOf};

use crate::{Image, flag};
use device::{Device, Held};
use execution::{OpenLoad, Response, Tables};
use reception::Reception;
use tables::{Extent, Load};

// The number of a state, and the first check byte where it is held.
fn code(reception: Reception) -> (u8, u8)
    ensures code { result.0 ≡ code_of reception }
    ensures first { result.1 ≡ first_of reception }
{
    match reception {
        Reception::Idle => (0, 0),
        Reception::InData => (1, 0),
        Reception::After13h => (2, 0),
        Reception::FirstCheck => (3, 0),
        Reception::SecondCheck(first) => (4, first),
    }
}

impl From<Device> for Image {
    ghost from_gives = { IsImageOf };

    #[tactic(auto, unfolding(crate::specs::Image::image_of))]
    fn from(device: Device) -> Image {
        let (state, first) = code(device.reception);
        let Held { response, times } = device.held;
        let Tables {
            versions,
            live,
            load,
        } = device.tables;
        let payload = response.payload;
        let version = load.version;
        let store = device.store;
        Image {
            state,
            first,
            spoiled: flag(device.spoiled),
            times,
            opened: flag(load.opened),
            network: load.network,
            over: flag(load.kept.over),
            any: flag(load.any),
            count: device.count,
            length: response.length,
            liveused: live.used,
            liverecords: live.records,
            loadused: load.kept.used,
            loadrecords: load.kept.records,
            payload,
            version,
            versions,
            store,
        }
    }
}

// The state that a number stands for. Any number has one: what is no image is refused as 3 by the call, after 1 and 2, and not here.
#[tactic(auto, unfolding(reception::specs::Cases::reception_of))]
fn reception_of(code: u8, first: u8) -> Reception
    ensures { result ≡ reception_of code first }
{
    match code {
        0 => Reception::Idle,
        1 => Reception::InData,
        2 => Reception::After13h,
        3 => Reception::FirstCheck,
        _ => Reception::SecondCheck(first),
    }
}

impl Image {
    // Whether the bytes are an image.
    #[tactic(auto, unfolding(crate::specs::Image::is_image))]
    fn is_image(&self) -> bool
        ensures { result ≡ is_image self.now }
    {
        (self.state <= 4)
            & (((self.state == 4) | (self.first == 0))
                & ((self.spoiled <= 1)
                    & ((self.opened <= 1) & ((self.over <= 1) & (self.any <= 1)))))
    }

    // The count of an image; for what is no image, one that no call accepts.
    fn known_count(&self) -> usize
        ensures { result ≡ count_in (is_image self.now) self.now.count }
    {
        if self.is_image() { self.count } else { 4096 }
    }

    // The open load of an image.
    #[tactic(auto, unfolding(crate::specs::Image::device_of))]
    fn load(&self) -> OpenLoad
        ensures { result ≡ (device_of self.now).tables.load }
    {
        OpenLoad {
            opened: self.opened != 0,
            network: self.network,
            version: self.version,
            kept: Load {
                used: self.loadused,
                records: self.loadrecords,
                over: self.over != 0,
            },
            any: self.any != 0,
        }
    }
}

impl From<Image> for Device {
    ghost from_gives = { IsDeviceOf };

    #[tactic(auto, unfolding(crate::specs::Image::device_of))]
    fn from(image: Image) -> Device {
        Device {
            reception: reception_of(image.state, image.first),
            spoiled: image.spoiled != 0,
            count: image.known_count(),
            store: image.store,
            held: Held {
                response: Response {
                    payload: image.payload,
                    length: image.length,
                },
                times: image.times,
            },
            tables: Tables {
                versions: image.versions,
                live: Extent {
                    used: image.liveused,
                    records: image.liverecords,
                },
                load: image.load(),
            },
        }
    }
}
