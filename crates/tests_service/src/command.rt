// The top call once for each command, and the places once. All other cases are lines of `case_command`.
use ddc_command::{Places, places, run_local};
use ddc_disk::{Devices, Disk, MemDisk};
use ddc_link::{FixedClock, MemSink, MemSource};
use ddc_names::{NoMemory, Rows};
use std::alloc::{AllocError, Global};
use std::test::Fail;

const INIT: &[&str] = &["init", "store", "game", "24", "4"];

const REPLAY: &[&str] = &["replay", "store"];

// The first file of a store with the namespace `game`, of 24 and 4 hours.
const GAME: [u8; 41] = [
    0x44, 0x44, 0x43, 0x4a, 0x4c, 0x4f, 0x47, 0x0a, 1, 0, 0, 0, 1, 0, 0, 0, 0, 0, 0, 0, 1, 1, 0x0e,
    0, 0, 0, 1, 4, 0x67, 0x61, 0x6d, 0x65, 0x18, 0, 0, 0, 4, 0, 0, 0, 0,
];

// A blob of no byte is stored, and fetched. The hash is b3sum's.
const REQUESTS: &[u8] =
    b"PUT /api/v1/blobs/game/af1349b9f5f9a1a6a0404dea36dcc9499bcb25c9 HTTP/1.1\r\nContent-Length: 0\r\n\r\nGET /api/v1/blobs/game/af1349b9f5f9a1a6a0404dea36dcc9499bcb25c9 HTTP/1.1\r\n\r\n";

const REPLIES: &[u8] =
    b"HTTP/1.1 200 OK\r\nContent-Type: application/json\r\nContent-Length: 57\r\n\r\n{\"identifier\":\"af1349b9f5f9a1a6a0404dea36dcc9499bcb25c9\"}HTTP/1.1 200 OK\r\nContent-Type: application/octet-stream\r\nX-Jupiter-IoHash: af1349b9f5f9a1a6a0404dea36dcc9499bcb25c9\r\nContent-Length: 0\r\n\r\n";

fn words_of(alloc: Global, words: &[&str]) -> Result<Vec<String>, AllocError> {
    let mut all = Vec::new(alloc);
    for word in words {
        all.push(String::from_str(alloc, word)?)?;
    }
    Ok(all)
}

fn disk(alloc: Global) -> MemDisk {
    MemDisk::new(alloc, Rows::new(alloc))
}

fn empty(alloc: Global) -> Devices<MemDisk> {
    Devices {
        first: disk(alloc),
        second: disk(alloc),
        blobs: disk(alloc),
    }
}

fn source_of(alloc: Global, input: &[u8]) -> Result<MemSource, NoMemory> {
    let bytes = Vec::from_slice(alloc, input)?;
    Ok(MemSource::new(Rows::of_vec(bytes), Rows::new(alloc), Rows::new(alloc)))
}

// Runs a command: its status, what it wrote, and the devices.
fn run(
    alloc: Global,
    words: &[&str],
    devices: Devices<MemDisk>,
    input: &[u8],
) -> Result<(u8, MemSink, Devices<MemDisk>), NoMemory> {
    let words = words_of(alloc, words)?;
    let mut source = source_of(alloc, input)?;
    let mut sink = MemSink::new(alloc, Rows::new(alloc));
    let mut notes = MemSink::new(alloc, Rows::new(alloc));
    let clock = FixedClock { hour: 100 };
    let (status, devices) = run_local(
        alloc,
        &words,
        devices,
        &mut source,
        &mut sink,
        &mut notes,
        &clock,
    );
    Ok((status, sink, devices))
}

#[test]
fn a_store_is_made(rt: HostRuntime) -> Result<(), Fail> {
    let (status, sink, mut devices) = run(rt.alloc(), INIT, empty(rt.alloc()), b"")?;
    assert_eq!(rt; status, 0);
    assert!(rt; sink.written() == b"namespace game ttl 24 pin 4\n".as_slice());
    let mut file = [9; 41];
    assert_eq!(rt; devices.first.read(0, &mut file), Ok(()));
    assert!(rt; file == GAME);
    Ok(())
}

#[test]
fn a_stream_is_answered(rt: HostRuntime) -> Result<(), Fail> {
    let mut devices = empty(rt.alloc());
    assert_eq!(rt; devices.first.write_at(0, &GAME), Ok(()));
    let (status, sink, _) = run(rt.alloc(), REPLAY, devices, REQUESTS)?;
    assert_eq!(rt; status, 0);
    assert!(rt; sink.written() == REPLIES);
    Ok(())
}

#[test]
fn the_folder_is_the_second_word(rt: HostRuntime) -> Result<(), Fail> {
    let wanted = Places {
        dir: 1,
        other: None,
        workers: 0,
    };
    let words = words_of(rt.alloc(), INIT)?;
    assert!(rt; places(&words) == Some(wanted));
    Ok(())
}
