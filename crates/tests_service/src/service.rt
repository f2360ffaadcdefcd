// One session over a store in memory. All other cases are lines of `case_command`.
use ddc_book::Book;
use ddc_disk::{Devices, MemDisk};
use ddc_link::{FixedClock, MemSink, MemSource};
use ddc_model::Limits;
use ddc_names::{NoMemory, Rows};
use ddc_service::{SessionEnd, replay_session};
use std::alloc::Global;
use std::test::Fail;

// A blob is fetched from a namespace that no one made. The hash is b3sum's, of no byte.
const REQUEST: &[u8] =
    b"GET /api/v1/blobs/game/af1349b9f5f9a1a6a0404dea36dcc9499bcb25c9 HTTP/1.1\r\n\r\n";

const REPLY: &[u8] =
    b"HTTP/1.1 404 Not Found\r\nContent-Type: application/json\r\nContent-Length: 29\r\n\r\n{\"error\":\"unknown_namespace\"}";

fn disk(alloc: Global) -> MemDisk {
    MemDisk::new(alloc, Rows::new(alloc))
}

fn empty(alloc: Global) -> Devices<MemDisk> {
    Devices {
        first: disk(alloc),
        second: disk(alloc),
        blobs: disk(alloc),
    }
}

fn source_of(alloc: Global, input: &[u8]) -> Result<MemSource, NoMemory> {
    let bytes = Vec::from_slice(alloc, input)?;
    Ok(MemSource::new(Rows::of_vec(bytes), Rows::new(alloc), Rows::new(alloc)))
}

// How a session on an empty store ended, or None where there was no store.
fn ended(alloc: Global, source: &mut MemSource, sink: &mut MemSink) -> Option<SessionEnd> {
    match Book::create(alloc, empty(alloc), Limits::standard()) {
        Ok(book) => {
            let mut book = book;
            let clock = FixedClock { hour: 100 };
            Some(replay_session(alloc, &mut book, source, sink, &clock))
        }
        Err(_) => None,
    }
}

#[test]
fn a_session_answers_to_the_end_of_its_input(rt: HostRuntime) -> Result<(), Fail> {
    let mut source = source_of(rt.alloc(), REQUEST)?;
    let mut sink = MemSink::new(rt.alloc(), Rows::new(rt.alloc()));
    let end = ended(rt.alloc(), &mut source, &mut sink);
    assert!(rt; end == Some(SessionEnd::Closed));
    assert!(rt; sink.written() == REPLY);
    Ok(())
}
