//! Pieces, faults and hours that a reader can count by hand.

use ddc_link::{
    Clock, FixedClock, MemSink, MemSource, Sink, Source, StdSink, StdSource, SystemClock, put_all,
};
use ddc_names::{ByteList, Failed, NoMemory, Rows};
use std::alloc::Global;
use std::io;
use std::test::Fail;
use std::time::{self, Duration};

fn rows_of<T: Copy + Drop>(alloc: Global, items: &[T]) -> Result<Rows<T>, NoMemory> {
    Ok(Rows::of_vec(Vec::from_slice(alloc, items)?))
}

// How many bytes a source gives for a buffer of four, and the buffer.
fn taken<S: Source>(source: &mut S) -> (Result<usize, Failed>, [u8; 4]) {
    let mut buffer = *b"....";
    (source.take(&mut buffer), buffer)
}

#[test]
fn a_source_gives_its_bytes_in_the_sizes_asked_for(rt: HostRuntime) -> Result<(), Fail> {
    let bytes: ByteList = rows_of(rt.alloc(), b"abcdefgh")?;
    let sizes = rows_of(rt.alloc(), &[3, 2, 0])?;
    let failing = rows_of(rt.alloc(), &[1])?;
    let mut source = MemSource::new(bytes, sizes, failing);
    for wanted in [
        (Ok(3), *b"abc."),
        (Err(Failed), *b"...."),
        (Ok(1), *b"d..."),
        (Ok(4), *b"efgh"),
        (Ok(0), *b"...."),
    ] {
        assert!(rt; taken(&mut source) == wanted);
    }
    Ok(())
}

#[test]
fn a_sink_fails_as_listed_and_keeps_the_rest(rt: HostRuntime) -> Result<(), Fail> {
    let failing = rows_of(rt.alloc(), &[1])?;
    let mut sink = MemSink::new(rt.alloc(), failing);
    assert!(rt; put_all(&mut sink, b"one ").is_ok());
    assert!(rt; put_all(&mut sink, b"two ").is_err());
    assert!(rt; sink.put(b"three") == Ok(5));
    assert!(rt; sink.written() == b"one three".as_slice() && sink.starved() == 0);
    Ok(())
}

// A clock that reads what the test says.
#[derive(Drop)]
struct Told(Option<u64>);

impl time::Clock for Told {
    fn monotonic(&self) -> io::Result<Duration> {
        self.since_1970()
    }

    fn since_1970(&self) -> io::Result<Duration> {
        match self.0 {
            Some(seconds) => Ok(Duration::from_secs(seconds)),
            None => Err(io::ErrorKind::Other.into()),
        }
    }
}

#[test]
fn a_clock_tells_whole_hours(rt: HostRuntime) {
    let cases = [
        (Some(0), 0),
        (Some(3_599), 0),
        (Some(3_600), 1),
        (Some(15_461_882_265_599), u32::MAX),
        (Some(15_461_882_265_600), 0),
        (None, 0),
    ];
    for (seconds, hour) in cases {
        let clock = SystemClock::new(Told(seconds));
        clock.rest();
        assert_eq!(rt; clock.hour(), hour);
    }
    let fixed = FixedClock { hour: 7 };
    fixed.rest();
    assert_eq!(rt; fixed.hour(), 7);
}

#[test]
fn the_system_clock_is_past_2024(rt: HostRuntime) {
    let clock = SystemClock::new(&rt);
    assert!(rt; clock.hour() > 473_352);
}

#[test]
fn standard_streams_write_what_they_are_given(rt: HostRuntime) {
    let mut output = StdSink::out(rt.stdout());
    assert_eq!(rt; put_all(&mut output, b"out\n"), Ok(()));
    let mut errors = StdSink::err(rt.stderr());
    assert_eq!(rt; put_all(&mut errors, b"err\n"), Ok(()));
}

#[test]
fn standard_input_is_read(rt: HostRuntime) {
    let mut input = StdSource::new(rt.stdin());
    assert!(rt; input.take(&mut [0; 4]).is_ok());
}
