// What a payload does to the tables, the versions and the open load, and what it is answered (scope paper, section Commands).
#![tactic(auto)]

mod judging;
mod loading;
mod responding;

ghost use Rattle.std.specs.Prelude.{◌≡◌, length};
ghost use Rattle.execution.specs.Core.{fresh_core};
ghost use Rattle.execution.specs.Stored.{stored_of, stored_as};
ghost use Rattle.execution.specs.Promise.{Executes};

use command::{Command, command_of};
pub use judging::is_response;
use tables::{Extent, Load};

// The open load: what TLI named, the extent of the records kept and whether one was not, and whether a TLR was answered 000. With no load open
// every field is 0: a flag and not an Option, since a caller may hand in any struct, and one that breaks this is refused.
#[derive(Clone, Copy, Debug, PartialEq, Eq)]
pub struct OpenLoad {
    pub opened: bool,
    pub network: u8,
    pub version: [u8; 10],
    pub kept: Load,
    pub any: bool,
}

// What commands read and change, beside the two lent stores: ten bytes of version for each network, the live store's extent, the open load.
#[derive(Clone, Copy, Debug, PartialEq, Eq)]
pub struct Tables {
    pub versions: [u8; 1000],
    pub live: Extent,
    pub load: OpenLoad,
}

// A response's payload, zeros after it, and its length: in fixed memory, and any two may be handed in, which refusal 3 judges.
#[derive(Clone, Copy, Debug, PartialEq, Eq)]
pub struct Response {
    pub payload: [u8; 19],
    pub length: usize,
}

impl Tables {
    // No record, no open load, and ten "0" bytes for every version.
    pub fn fresh() -> Tables
        ensures { result ≡ (stored_of fresh_core).tables }
    {
        Tables {
            versions: [0x30; 1000],
            live: Extent {
                used: 0,
                records: 0,
            },
            load: OpenLoad::none(),
        }
    }

    // Executes `payload`, once.
    pub fn execute(&mut self, payload: &[u8], live: &mut [u8], loading: &mut [u8]) -> Response
        ensures { Executes payload.now (stored_as self.old live.old loading.old) (record { tables = self.new; response = result }) live.new loading.new }
    {
        match command_of(payload) {
            Command::Opn => Response::text(b"OPN000"),
            Command::Gts(network) => self.version_response(network),
            Command::GtsWrong => Response::text(b"GTS011"),
            Command::Tli(network) => self.open_load(network, payload, loading),
            Command::TliWrong => Response::text(b"TLI011"),
            Command::Tlr => self.add_records(payload, loading),
            Command::TlrWrong => self.wrong_records(),
            Command::Tle => self.end_load(live, loading),
            Command::Unknown => Response::text(b"ERR010"),
        }
    }
}
