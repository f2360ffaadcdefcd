//! Asks for the needs of a closure a number of times: `bench_needs LINKS TIMES`.
//! Each object has ten links: two to objects, which others link to too, and eight to blobs, of which every second is
//! stored.
#![tactic(auto)]

use cb_fields::{Link, LinkKind};
use ddc_model::{Entry, Limits, Stored};
use ddc_names::{IoHash, Namespace, NoMemory, Rows};
use ddc_state::Index;
use needs_resolver::needs;
use std::alloc::Global;
use std::{env, io};

// Hashes in no order.
fn hash_of(number: u64) -> IoHash {
    let mut bytes = [0; 20];
    bytes[..8].copy_from_slice(&number.wrapping_mul(0x9e37_79b9_7f4a_7c15).to_be_bytes());
    IoHash(bytes)
}

fn link(kind: LinkKind, number: u64) -> Link {
    Link {
        kind,
        hash: hash_of(number),
    }
}

// The object that stands so far to the side below another in a tree, or one above it where the tree ends.
fn object_below(number: u64, side: u64, objects: u64) -> Link {
    let below = number.wrapping_mul(2).wrapping_add(side);
    link(
        LinkKind::Object,
        if below < objects { below } else { number / 2 },
    )
}

fn first_blob(number: u64, objects: u64) -> u64 {
    number.wrapping_mul(8).wrapping_add(objects)
}

fn links_of(alloc: Global, number: u64, objects: u64) -> Result<Rows<Link>, NoMemory> {
    let mut links = Rows::new(alloc);
    links.push(object_below(number, 1, objects))?;
    links.push(object_below(number, 2, objects))?;
    for place in 0..8 {
        let blob = first_blob(number, objects).wrapping_add(place);
        links.push(link(LinkKind::Binary, blob))?;
    }
    Ok(links)
}

fn apply(alloc: Global, index: &mut Index, entry: &Entry) -> Result<(), NoMemory> {
    if index.fits(entry) {
        index.apply(alloc, entry)?;
    }
    Ok(())
}

fn store(
    alloc: Global,
    index: &mut Index,
    space: &Namespace,
    number: u64,
    links: Rows<Link>,
) -> Result<(), NoMemory> {
    let blob = Stored {
        hash: hash_of(number),
        len: 1,
        start: number,
        links,
    };
    let entry = Entry::Upload {
        space: *space,
        hour: 1,
        blob,
    };
    apply(alloc, index, &entry)
}

// An object, and every second of its blobs.
fn store_object(
    alloc: Global,
    index: &mut Index,
    space: &Namespace,
    number: u64,
    objects: u64,
) -> Result<(), NoMemory> {
    let links = links_of(alloc, number, objects)?;
    store(alloc, index, space, number, links)?;
    for pair in 0..4 {
        let blob = first_blob(number, objects).wrapping_add(pair * 2);
        store(alloc, index, space, blob, Rows::new(alloc))?;
    }
    Ok(())
}

fn filled(alloc: Global, space: &Namespace, objects: u64) -> Result<Index, NoMemory> {
    let mut index = Index::new(alloc, Limits::standard());
    let entry = Entry::Space {
        space: *space,
        ttl: 24,
        pin: 4,
    };
    apply(alloc, &mut index, &entry)?;
    for number in 0..objects {
        store_object(alloc, &mut index, space, number, objects)?;
    }
    Ok(index)
}

// How many hashes were needed at last, and how many objects were read in all.
fn run(alloc: Global, space: &Namespace, objects: u64, times: u64) -> Result<(u64, u64), NoMemory> {
    let mut index = filled(alloc, space, objects)?;
    let mut needed = 0;
    for _ in 0..times {
        needed = needs(alloc, &mut index, space, hash_of(0))?.len() as u64;
    }
    Ok((needed, index.reads()))
}

fn main(rt: HostRuntime) -> io::Result<()> {
    let mut words = env::args(&rt)?;
    let _program = words.next();
    let (Some(links), Some(times), Ok(space)) = (
        words.next(),
        words.next(),
        Namespace::parse("game"),
    ) else {
        println!(rt; "usage: bench_needs LINKS TIMES")?;
        return Ok(());
    };
    let objects = links.as_str().parse::<u64>().unwrap_or(0) / 10;
    let times = times.as_str().parse::<u64>().unwrap_or(0);
    match run(rt.alloc(), &space, objects, times) {
        Ok((needed, reads)) => {
            println!(rt; "{} links, {needed} needed, {reads} reads", links.as_str())?;
        }
        Err(NoMemory) => println!(rt; "no memory")?,
    }
    Ok(())
}
