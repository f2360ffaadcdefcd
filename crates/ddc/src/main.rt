//! The program `ddc`: makes the real devices, source, sink, notes and clock, and calls the top call.
#![tactic(auto)]

use ddc_command::{places, run_local};
use ddc_disk::{Devices, FileDisk};
use ddc_link::{Sink, StdSink, StdSource, SystemClock, put_all};
use ddc_names::NoMemory;
use std::alloc::{AllocError, Global};
use std::env;
use std::io::ErrorKind;
use std::process::ExitCode;

// The words after the program's name. Where one is no text, the words fit no form, as none do.
fn words_of(rt: &HostRuntime, alloc: Global) -> Result<Vec<String>, AllocError> {
    let mut words = Vec::new(alloc);
    let all = match env::args(rt) {
        Ok(all) => all,
        Err(fault) if fault.kind() == ErrorKind::InvalidData => return Ok(words),
        Err(_) => return Err(AllocError),
    };
    for word in all.skip(1) {
        words.push(word)?;
    }
    Ok(words)
}

// The folder that the words name, or no name where they have no form. No file is opened then.
fn folder_of(words: &[String]) -> &str {
    let at = match places(words) {
        Some(found) => found.dir,
        None => return "",
    };
    match words.get(at) {
        Some(word) => word.as_str(),
        None => "",
    }
}

// A file of a folder, which is opened at its first call. Without a name of the folder there is none.
fn file_of(rt: HostRuntime, alloc: Global, folder: &str, name: &str) -> Result<FileDisk, NoMemory> {
    if folder.is_empty() {
        return FileDisk::at_path(rt, alloc, "");
    }
    let path = format!(in alloc; "{folder}/{name}")?;
    FileDisk::at_path(rt, alloc, path.as_str())
}

// The devices of the store in a folder.
fn devices_of(rt: HostRuntime, alloc: Global, folder: &str) -> Result<Devices<FileDisk>, NoMemory> {
    Ok(Devices {
        first: file_of(rt, alloc, folder, "journal-a")?,
        second: file_of(rt, alloc, folder, "journal-b")?,
        blobs: file_of(rt, alloc, folder, "blobs")?,
    })
}

// Tells that there was no memory.
fn starved(notes: &mut StdSink) -> ExitCode {
    let _ = put_all(notes, b"ddc: no memory\n");
    ExitCode::from(6)
}

fn main(rt: HostRuntime) -> ExitCode {
    let alloc = rt.alloc();
    let mut notes = StdSink::err(rt.stderr());
    let Ok(words) = words_of(&rt, alloc) else {
        return starved(&mut notes);
    };
    let Ok(devices) = devices_of(rt, alloc, folder_of(&words)) else {
        return starved(&mut notes);
    };
    let mut source = StdSource::new(rt.stdin());
    let mut sink = StdSink::out(rt.stdout());
    let clock = SystemClock::new(rt);
    let (status, _devices) = run_local(
        alloc,
        &words,
        devices,
        &mut source,
        &mut sink,
        &mut notes,
        &clock,
    );
    ExitCode::from(status)
}
