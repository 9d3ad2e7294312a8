// The open load: TLI opens it, TLR adds to it, TLE closes it, a restart drops it.
ghost use Rattle.std.specs.Prelude.{◌≡◌, cond, ◌≤◌, ◌<◌, length};
ghost use Rattle.records.specs.Store.{zeros};
ghost use Rattle.tables.specs.Closing.{new_version, version_of};
ghost use Rattle.command.specs.Texts.{ascii};
ghost use Rattle.execution.specs.CommandTable.{version_in, block_in, same};
ghost use Rattle.execution.specs.Stored.{no_load, stored_as};
ghost use Rattle.execution.specs.Promise.{tables_with, new_load, grown, stocked_in, Drops};
ghost use Rattle.execution.specs.Steps.{Leaves, Ends};

use crate::{OpenLoad, Response, Tables};
use records::zero_store;
use tables::{Load, add_block, close_load, versions_after};

// A load with no record yet.
const EMPTY: Load = Load {
    used: 0,
    records: 0,
    over: false,
};

impl OpenLoad {
    // What the field holds with no load open.
    pub(crate) fn none() -> OpenLoad
        ensures { result ≡ no_load }
    {
        OpenLoad {
            opened: false,
            network: 0,
            version: [0; 10],
            kept: EMPTY,
            any: false,
        }
    }

    // A load with no record yet.
    fn new(network: u8, version: [u8; 10]) -> OpenLoad
        ensures { result ≡ new_load network version }
    {
        OpenLoad {
            opened: true,
            network,
            version,
            kept: EMPTY,
            any: false,
        }
    }

    // The version that the load leaves when it is closed.
    fn version_after(&self) -> [u8; 10]
        ensures { result ≡ new_version self.now.any self.now.version }
    {
        if self.any { self.version } else { [0x30; 10] }
    }
}

// The version that TLI names.
fn version_in(payload: &[u8]) -> [u8; 10]
    requires { length payload.now ≡ 18 }
    ensures { result ≡ version_in payload.now }
{
    let mut version = [0u8; 10];
    version.copy_from_slice(&payload[8..18]);
    version
}

impl Tables {
    // TLI: opens a load and drops one already open.
    pub(crate) fn open_load(&mut self, network: u8, payload: &[u8], loading: &mut [u8]) -> Response
        requires { (network < 100) × (length payload.now ≡ 18) }
        ensures { Leaves (tables_with self.old (new_load network (version_in payload.now))) (cond (same (version_in payload.now) (version_of network self.old.versions)) (ascii "TLI000") (ascii "TLI020")) (zeros (length loading.old)) (record { tables = self.new; response = result }) loading.new }
    {
        let version = version_in(payload);
        self.load = OpenLoad::new(network, version);
        zero_store(loading);
        if version.as_slice() == self.version_of(network) {
            Response::text(b"TLI000")
        } else {
            Response::text(b"TLI020")
        }
    }

    // TLR with a good layout: adds the records to the open load.
    pub(crate) fn add_records(&mut self, payload: &[u8], loading: &mut [u8]) -> Response
        requires { 6 ≤ length payload.now }
        ensures { Leaves (cond self.old.load.opened (tables_with self.old (grown self.old.load (stocked_in self.old.load loading.old (block_in payload.now)).load)) self.old) (cond self.old.load.opened (ascii "TLR000") (ascii "TLR010")) (cond self.old.load.opened (stocked_in self.old.load loading.old (block_in payload.now)).bytes loading.old) (record { tables = self.new; response = result }) loading.new }
    {
        if !self.load.opened {
            return Response::text(b"TLR010");
        }
        let network = self.load.network;
        self.load.kept = add_block(loading, self.load.kept, network, &payload[6..]);
        self.load.any = true;
        Response::text(b"TLR000")
    }

    // TLE: closes the open load, and its new set is the live one where it passes no limit.
    pub(crate) fn end_load(&mut self, live: &mut [u8], loading: &mut [u8]) -> Response
        ensures { Ends (stored_as self.old live.old loading.old) (record { tables = self.new; response = result }) live.new loading.new }
    {
        let load = self.load;
        if !load.opened {
            return Response::text(b"TLE010");
        }
        let Some(extent) = close_load(live, loading, self.live, load.kept, load.network) else {
            self.load = OpenLoad::none();
            return Response::text(b"TLE021");
        };
        *self = Tables {
            versions: versions_after(self.versions, load.network, load.version_after()),
            live: extent,
            load: OpenLoad::none(),
        };
        Response::text(b"TLE000")
    }

    // Drops the open load, if there is one: its store is zeroed.
    pub fn drop_load(&mut self, loading: &mut [u8])
        ensures { Drops self.old loading.old self.new loading.new }
    {
        zero_store(loading);
        self.load = OpenLoad::none();
    }
}
