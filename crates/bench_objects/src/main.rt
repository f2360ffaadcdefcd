//! Checks a large object, or lists its links, a number of times: `bench_objects CALL SHAPE COUNT TIMES`.
//! CALL is `check` or `links`. SHAPE is `fields` (small named integers), `attachments` or `nested`
//! (objects in one another), and COUNT is how many there are.
#![tactic(auto)]

use cb_fields::{check_object, links_of};
use std::alloc::{AllocError, Global};
use std::{env, io};

// An object of `count` copies of a field.
fn object_of(alloc: Global, field: &[u8], count: u64) -> Result<Vec<u8>, AllocError> {
    let mut object = Vec::new(alloc);
    object.extend_from_slice(b"\x02\xff")?;
    object.extend_from_slice(&(field.len() as u64).wrapping_mul(count).to_be_bytes())?;
    for _ in 0..count {
        object.extend_from_slice(field)?;
    }
    Ok(object)
}

// `count` objects, each but the last with the next as its one field.
fn nested(alloc: Global, count: u64) -> Result<Vec<u8>, AllocError> {
    let mut object = Vec::new(alloc);
    for level in 0..count {
        object.extend_from_slice(b"\x02\xff")?;
        object.extend_from_slice(&(count - 1 - level).wrapping_mul(10).to_be_bytes())?;
    }
    Ok(object)
}

fn object(alloc: Global, shape: &str, count: u64) -> Result<Vec<u8>, AllocError> {
    match shape {
        "fields" => object_of(alloc, b"\x88\x01a\x05", count),
        "attachments" => object_of(alloc, b"\x0fabcdefghijklmnopqrst", count),
        _ => nested(alloc, count),
    }
}

// What the call gave: whether the bytes are an object, or how many links they have.
fn answer(alloc: Global, call: &str, bytes: &[u8]) -> u64 {
    if call == "check" {
        check_object(alloc, bytes).is_ok() as u64
    } else {
        match links_of(alloc, bytes) {
            Ok(links) => links.len() as u64,
            Err(_) => u64::MAX,
        }
    }
}

fn main(rt: HostRuntime) -> io::Result<()> {
    let mut words = env::args(&rt)?;
    let _program = words.next();
    let (Some(call), Some(shape), Some(count), Some(times)) = (
        words.next(),
        words.next(),
        words.next(),
        words.next(),
    ) else {
        println!(rt; "usage: bench_objects check|links fields|attachments|nested COUNT TIMES")?;
        return Ok(());
    };
    let count = count.as_str().parse::<u64>().unwrap_or(0);
    let times = times.as_str().parse::<u64>().unwrap_or(0);
    let bytes = object(rt.alloc(), shape.as_str(), count)?;
    let mut last = 0;
    for _ in 0..times {
        last = answer(rt.alloc(), call.as_str(), &bytes);
    }
    println!(rt; "{} bytes, {last}", bytes.len())?;
    Ok(())
}
