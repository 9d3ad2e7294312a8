// The state at the end of a script, field by field.
use board::Board;
use device::Held;
use execution::OpenLoad;
use packet::write_packet;
use reception::Reception;
use script::Hex;
use std::io::Write;
use std::{fmt, io};

// All of it.
pub fn show<W: Write>(output: &mut W, board: &Board) -> io::Result<()> {
    let device = &board.device;
    let tables = &device.tables;
    let extent = tables.live;
    writeln!(
        output,
        "reception {} {} {}",
        Name(device.reception),
        u8::from(device.spoiled),
        device.count
    )?;
    show_held(output, &device.held)?;
    show_load(output, &tables.load)?;
    writeln!(output, "live {} {}", extent.used, extent.records)?;
    let live = Hex(start_of(&board.live, extent.used));
    writeln!(output, "live-bytes {live}")?;
    let loading = Hex(start_of(&board.loading, tables.load.kept.used));
    writeln!(output, "loading-bytes {loading}")?;
    show_versions(output, &tables.versions)?;
    writeln!(output, "store {}", Hex(&device.store))
}

// The first `n` bytes, or all where there are fewer.
fn start_of(s: &[u8], n: usize) -> &[u8] {
    s.get(..n).unwrap_or(s)
}

// Shows where reception is.
#[derive(Clone, Copy, Debug)]
struct Name(Reception);

impl fmt::Display for Name {
    fn fmt<W: fmt::Write>(&self, f: &mut fmt::Formatter<W>) -> fmt::Result {
        match self.0 {
            Reception::Idle => f.write_str("idle"),
            Reception::InData => f.write_str("data"),
            Reception::After13h => f.write_str("escape"),
            Reception::FirstCheck => f.write_str("first"),
            Reception::SecondCheck(first) => write!(f, "second-{first:02X}"),
        }
    }
}

// `held HEX TIMES`: the packet, as it would be sent again
fn show_held<W: Write>(output: &mut W, held: &Held) -> io::Result<()> {
    let response = &held.response;
    let payload = start_of(&response.payload, response.length);
    let mut packet = [0u8; 64];
    let n = write_packet(payload, &mut packet).unwrap_or(0);
    writeln!(output, "held {} {}", Hex(start_of(&packet, n)), held.times)
}

// `load closed`, or `load open NN VERSION USED RECORDS OVER ANY`
fn show_load<W: Write>(output: &mut W, load: &OpenLoad) -> io::Result<()> {
    if !load.opened {
        return writeln!(output, "load closed");
    }
    let kept = load.kept;
    writeln!(
        output,
        "load open {:02} {} {} {} {} {}",
        load.network,
        Hex(&load.version),
        kept.used,
        kept.records,
        u8::from(kept.over),
        u8::from(load.any)
    )
}

// `version NN HEX`, for each of the hundred networks
fn show_versions<W: Write>(output: &mut W, versions: &[u8]) -> io::Result<()> {
    for (n, version) in versions.chunks(10).enumerate() {
        writeln!(output, "version {n:02} {}", Hex(version))?;
    }
    Ok(())
}
