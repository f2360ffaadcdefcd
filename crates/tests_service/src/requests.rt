use ddc_http::{
    Ask, ErrorCode, Head, HttpFault, Kind, RequestReader, WriteFault, damaged_body, error_body,
    fault_body, full_body, history_full_body, identifier_body, needs_body, status_phrases,
    write_head,
};
use ddc_link::{MemSink, MemSource, Source};
use ddc_model::What;
use ddc_names::{ByteList, IoHash, NoMemory, Rows};
use std::alloc::Global;
use std::test::Fail;

// The first 20 bytes of the BLAKE3 hash of nothing, as b3sum prints them.
const EMPTY: IoHash = IoHash([
    0xaf, 0x13, 0x49, 0xb9, 0xf5, 0xf9, 0xa1, 0xa6, 0xa0, 0x40, 0x4d, 0xea, 0x36, 0xdc, 0xc9, 0x49,
    0x9b, 0xcb, 0x25, 0xc9,
]);

const OTHER: IoHash = IoHash([0x0f; 20]);

// A put of nothing, of 95 bytes, and a get of it, of 76.
const STREAM: &[u8] =
    b"PUT /api/v1/blobs/game/af1349b9f5f9a1a6a0404dea36dcc9499bcb25c9 HTTP/1.1\r\nContent-Length: 0\r\n\r\nGET /api/v1/blobs/game/af1349b9f5f9a1a6a0404dea36dcc9499bcb25c9 HTTP/1.1\r\n\r\n";

// What a call gave.
#[derive(Clone, Copy, Debug, PartialEq, Eq)]
enum Seen {
    Put(usize, IoHash),
    Get(IoHash),
    Nothing,
    Other,
}

// What a call gave, and the place after it.
#[derive(Clone, Copy, Debug, PartialEq, Eq)]
struct Step(Seen, u64);

fn next_step<S: Source>(reader: &mut RequestReader<'_, S>) -> Step {
    if reader.ended() {
        return Step(Seen::Other, reader.place());
    }
    let seen = match reader.next() {
        Ok(Some(request)) => match &request.ask {
            Ask::PutBlob { blob, .. } => {
                Seen::Put(blob.whole().bytes().len(), blob.whole().hash())
            }
            Ask::GetBlob { hash, .. } => Seen::Get(*hash),
            _ => Seen::Other,
        },
        Ok(None) => Seen::Nothing,
        Err(_) => Seen::Other,
    };
    Step(seen, reader.place())
}

// Three calls over the stream.
fn steps(alloc: Global) -> Result<[Step; 3], NoMemory> {
    let bytes = Rows::of_vec(Vec::from_slice(alloc, STREAM)?);
    let mut source = MemSource::new(bytes, Rows::new(alloc), Rows::new(alloc));
    let mut reader = RequestReader::new(alloc, &mut source)?;
    let first = next_step(&mut reader);
    let second = next_step(&mut reader);
    let third = next_step(&mut reader);
    reader.finish();
    Ok([first, second, third])
}

#[test]
fn requests_come_one_after_another(rt: HostRuntime) -> Result<(), Fail> {
    let found = steps(rt.alloc())?;
    let wanted = [
        Step(Seen::Put(0, EMPTY), 95),
        Step(Seen::Get(EMPTY), 171),
        Step(Seen::Nothing, 171),
    ];
    assert_eq!(rt; found, wanted);
    Ok(())
}

#[test]
fn a_head_has_its_lines(rt: HostRuntime) -> Result<(), Fail> {
    let head = Head {
        status: 200,
        kind: Kind::Octets,
        hash: Some(EMPTY),
        length: 57,
        close: true,
    };
    let mut sink = MemSink::new(rt.alloc(), Rows::new(rt.alloc()));
    let written = write_head(rt.alloc(), &mut sink, &head);
    assert_eq!(rt; written, Ok::<(), WriteFault>(()));
    assert_eq!(rt;
        sink.written(),
        b"HTTP/1.1 200 OK\r\nContent-Type: application/octet-stream\r\nX-Jupiter-IoHash: af1349b9f5f9a1a6a0404dea36dcc9499bcb25c9\r\nContent-Length: 57\r\nConnection: close\r\n\r\n".as_slice()
    );
    Ok(())
}

// A call that makes a body.
#[derive(Clone, Copy)]
enum Body {
    Identifier,
    Refusal,
    Mismatch,
    Full,
    HistoryFull,
    Damaged,
    Needs,
}

fn body_of(alloc: Global, body: Body) -> Result<ByteList, NoMemory> {
    match body {
        Body::Identifier => identifier_body(alloc, &EMPTY),
        Body::Refusal => error_body(alloc, ErrorCode::NotFound),
        Body::Mismatch => fault_body(
            alloc,
            &HttpFault::HashMismatch {
                named: EMPTY,
                found: OTHER,
            },
        ),
        Body::Full => full_body(alloc, What::Blobs, 2_097_152),
        Body::HistoryFull => history_full_body(alloc, 3, 0),
        Body::Damaged => damaged_body(alloc, &EMPTY, &OTHER),
        Body::Needs => needs_body(alloc, &[OTHER, EMPTY]),
    }
}

const BODIES: [(Body, &str); 7] = [
    (
        Body::Identifier,
        "{\"identifier\":\"af1349b9f5f9a1a6a0404dea36dcc9499bcb25c9\"}",
    ),
    (Body::Refusal, "{\"error\":\"not_found\"}"),
    (
        Body::Mismatch,
        "{\"error\":\"hash_mismatch\",\"found\":\"0f0f0f0f0f0f0f0f0f0f0f0f0f0f0f0f0f0f0f0f\",\"named\":\"af1349b9f5f9a1a6a0404dea36dcc9499bcb25c9\"}",
    ),
    (
        Body::Full,
        "{\"error\":\"full\",\"limit\":2097152,\"what\":\"blobs\"}",
    ),
    (
        Body::HistoryFull,
        "{\"entries\":3,\"error\":\"history_full\",\"links\":0}",
    ),
    (
        Body::Damaged,
        "{\"error\":\"damaged\",\"found\":\"0f0f0f0f0f0f0f0f0f0f0f0f0f0f0f0f0f0f0f0f\",\"named\":\"af1349b9f5f9a1a6a0404dea36dcc9499bcb25c9\"}",
    ),
    (
        Body::Needs,
        "{\"needs\":[\"0f0f0f0f0f0f0f0f0f0f0f0f0f0f0f0f0f0f0f0f\",\"af1349b9f5f9a1a6a0404dea36dcc9499bcb25c9\"]}",
    ),
];

#[test]
fn each_body_has_its_text(rt: HostRuntime) -> Result<(), Fail> {
    status_phrases();
    for (body, wanted) in BODIES {
        let found = body_of(rt.alloc(), body)?;
        assert_eq!(rt; found.as_slice(), wanted.as_bytes());
    }
    Ok(())
}
