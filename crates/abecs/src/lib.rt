// The boundary to C and Rust: each public call under a name of its own, with the same promise. A slice crosses as a pointer and a length.
#![tactic(auto)]

mod numbered;

ghost use Rattle.std.specs.Prelude.{◌≡◌, not, eqb, length};
ghost use Rattle.answer.specs.Answers.{Gives as GivesOutput};
ghost use Rattle.abecs.specs.Numbered.{Gives, object_as};
ghost use Rattle.crc16.specs.Crc.{check};
ghost use Rattle.packet.specs.Packet.{write_packet, read_packet};
ghost use Rattle.parameters.specs.Finding.{find};
ghost use Rattle.message.specs.Message.{read_message, write_message};
ghost use Rattle.objects.specs.Object.{write_object, read_of};
ghost use Rattle.picking.specs.Pick.{pick};
ghost use Rattle.records.specs.Record.{good_block};
ghost use Rattle.records.specs.Store.{zeros, sound_store};
ghost use Rattle.image.specs.Image.{flag_of};
ghost use Rattle.image.specs.ImagePromise.{StartsImage, ReceivesImage, TimesOutImage, RestartsImage};
ghost use Rattle.abecs.specs.Flags.{load_of, extent_of, AddsOf, ClosesOf, versions_of};

use answer::Refusal;
use image::{Image, Taken, flag, receive_image, restart_image, start_image, timeout_image};
pub use numbered::{Answer, ClosedOf, LoadOf, ObjectOf};
use tables::{Extent, Load};

// ---- the device: no enum crosses, so its image is lent, and brought up to date where it stands

// Starts a fresh device and zeroes both stores. Refusal: 2, which leaves the image as it was, whatever its bytes.
#[unsafe(no_mangle)]
pub extern "C" fn abecs_start(image: &mut Image, live: &mut [u8], loading: &mut [u8]) -> Taken
    ensures { StartsImage image.old live.old loading.old (record { image = image.new; answer = result }) live.new loading.new }
{
    start_image(image, live, loading)
}

// Takes a piece of the line's bytes, up to the one that completes a reply, or all. Refusals in this order: 1, 2, 3.
#[unsafe(no_mangle)]
pub extern "C" fn abecs_receive(
    image: &mut Image,
    piece: &[u8],
    out: &mut [u8],
    live: &mut [u8],
    loading: &mut [u8],
) -> Taken
    ensures { ReceivesImage image.old piece.now out.old live.old loading.old (record { image = image.new; answer = result }) out.new live.new loading.new }
{
    receive_image(image, piece, out, live, loading)
}

// The line was silent for too long: reception goes idle. Refusals: 1, 2, 3.
#[unsafe(no_mangle)]
pub extern "C" fn abecs_timeout(
    image: &mut Image,
    out: &mut [u8],
    live: &mut [u8],
    loading: &mut [u8],
) -> Taken
    ensures { TimesOutImage image.old out.old live.old loading.old (record { image = image.new; answer = result }) out.new live.new loading.new }
{
    timeout_image(image, out, live, loading)
}

// The board restarted: reception idle, held response forgotten, open load dropped. Refusals: 1, 2, 3.
#[unsafe(no_mangle)]
pub extern "C" fn abecs_restart(
    image: &mut Image,
    out: &mut [u8],
    live: &mut [u8],
    loading: &mut [u8],
) -> Taken
    ensures { RestartsImage image.old out.old live.old loading.old (record { image = image.new; answer = result }) out.new live.new loading.new }
{
    restart_image(image, out, live, loading)
}

// ---- packets

#[unsafe(no_mangle)]
pub extern "C" fn abecs_check_of(payload: &[u8]) -> u16
    ensures { result ≡ check payload.now }
{
    crc16::check_of(payload)
}

#[unsafe(no_mangle)]
pub extern "C" fn abecs_write_packet(payload: &[u8], out: &mut [u8]) -> Answer
    ensures { Gives (write_packet payload.now) out.old result out.new }
{
    Answer::from(packet::write_packet(payload, out))
}

#[unsafe(no_mangle)]
pub extern "C" fn abecs_read_packet(bytes: &[u8], out: &mut [u8]) -> Answer
    ensures { Gives (read_packet bytes.now) out.old result out.new }
{
    Answer::from(packet::read_packet(bytes, out))
}

// ---- messages: `response` is 0 for a command, and anything else for a response

#[unsafe(no_mangle)]
pub extern "C" fn abecs_read_message(bytes: &[u8], response: u8, out: &mut [u8]) -> Answer
    ensures { Gives (read_message (not (eqb response 0)) bytes.now) out.old result out.new }
{
    Answer::from(message::read_message(bytes, response != 0, out))
}

#[unsafe(no_mangle)]
pub extern "C" fn abecs_write_message(
    head: &[u8],
    response: u8,
    list: &[u8],
    out: &mut [u8],
) -> Answer
    ensures { Gives (write_message head.now (not (eqb response 0)) list.now) out.old result out.new }
{
    Answer::from(message::write_message(head, response != 0, list, out))
}

// Gives the part that is found to `out`.
fn give_parameter(list: &[u8], number: u16, n: usize, out: &mut [u8]) -> Result<usize, Refusal>
    ensures { GivesOutput (find list.now number n) out.old result out.new }
{
    answer::give(parameters::find(list, number, n)?, out)
}

// No reference can be handed back across the boundary, so the part that is found is given to `out`.
#[unsafe(no_mangle)]
pub extern "C" fn abecs_find_parameter(list: &[u8], number: u16, n: usize, out: &mut [u8]) -> Answer
    ensures { Gives (find list.now number n) out.old result out.new }
{
    Answer::from(give_parameter(list, number, n, out))
}

// ---- objects

#[unsafe(no_mangle)]
pub extern "C" fn abecs_read_object(input: &[u8]) -> ObjectOf
    ensures { result ≡ object_as (read_of input.now) }
{
    ObjectOf::from(objects::read_object(input))
}

#[unsafe(no_mangle)]
pub extern "C" fn abecs_write_object(tag: &[u8], value: &[u8], out: &mut [u8]) -> Answer
    ensures { Gives (write_object tag.now value.now) out.old result out.new }
{
    Answer::from(objects::write_object(tag, value, out))
}

#[unsafe(no_mangle)]
pub extern "C" fn abecs_pick(tags: &[u8], list: &[u8], out: &mut [u8]) -> Answer
    ensures { Gives (pick tags.now list.now) out.old result out.new }
{
    Answer::from(picking::pick(tags, list, out))
}

// ---- tables: a flag is 0 or 1; what is handed in as a flag counts as 1 unless it is 0

#[unsafe(no_mangle)]
pub extern "C" fn abecs_check_store(store: &[u8], used: usize, records: usize, network: u8) -> u8
    ensures { result ≡ flag_of (sound_store network used records store.now) }
{
    flag(records::check_store(store, used, records, network))
}

#[unsafe(no_mangle)]
pub extern "C" fn abecs_block_good(block: &[u8]) -> u8
    ensures { result ≡ flag_of (good_block block.now) }
{
    flag(records::block_good(block))
}

#[unsafe(no_mangle)]
pub extern "C" fn abecs_add_block(
    store: &mut [u8],
    used: usize,
    records: usize,
    over: u8,
    network: u8,
    block: &[u8],
) -> LoadOf
    ensures { AddsOf network (load_of used records over) block.now store.old result store.new }
{
    let load = Load {
        used,
        records,
        over: over != 0,
    };
    LoadOf::from(tables::add_block(store, load, network, block))
}

// The live store's extent comes before the load's.
#[unsafe(no_mangle)]
pub extern "C" fn abecs_close_load(
    live: &mut [u8],
    loading: &mut [u8],
    used: usize,
    records: usize,
    loaded: usize,
    added: usize,
    over: u8,
    network: u8,
) -> ClosedOf
    ensures { ClosesOf network (extent_of used records) (load_of loaded added over) live.old loading.old result live.new loading.new }
{
    let extent = Extent { used, records };
    let load = Load {
        used: loaded,
        records: added,
        over: over != 0,
    };
    let closed = tables::close_load(live, loading, extent, load, network);
    let Extent { used, records } = closed.unwrap_or(extent);
    ClosedOf {
        done: flag(closed.is_some()),
        used,
        records,
    }
}

#[unsafe(no_mangle)]
pub extern "C" fn abecs_zero_store(store: &mut [u8])
    ensures { store.new ≡ zeros (length store.old) }
{
    records::zero_store(store)
}

// No array crosses by value, so the versions are brought up to date where they stand; of other sizes than 1,000 and ten bytes nothing changes.
#[tactic(auto, using(crate::proofs::Whole::version_short))]
#[unsafe(no_mangle)]
pub extern "C" fn abecs_versions_after(versions: &mut [u8], network: u8, version: &[u8])
    ensures { versions.new ≡ versions_of network version.now versions.old }
{
    let Ok(all) = <[u8; 1000]>::try_from(&*versions) else {
        return;
    };
    let Ok(ten) = <[u8; 10]>::try_from(version) else {
        return;
    };
    versions.copy_from_slice(&tables::versions_after(all, network, ten));
}
