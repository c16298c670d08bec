// What stands where a standard stream is closed, so that no file of a store, of sources or of a folder comes to stand
// there: a print would be written into it.
use std::fs::File;
use std::io;
use std::os::fd::AsRawFd;
use std::rt::Files;

/// A device that has no bytes.
const NULL: &str = "/dev/null";

/// The greatest number of a standard stream.
const LAST_STREAM: i32 = 2;

/// The files that stand for closed streams, as long as this lives. They are open for reading alone: an input is at its
/// end, and a print fails.
#[derive(Drop)]
pub struct StandIns {
    files: [Option<File>; 3],
}

/// Opens a file for each standard stream that is closed: the system gives the least number that is free.
pub fn keep_streams_open<R: Files<File = File>>(rt: &R) -> io::Result<StandIns> {
    let mut files = [None, None, None];
    for place in &mut files {
        let file = stand_in(rt)?;
        if file.as_raw_fd() > LAST_STREAM {
            break;
        }
        *place = Some(file);
    }
    Ok(StandIns { files })
}

/// The null device, or where there is none the root folder, which takes no print either.
fn stand_in<R: Files<File = File>>(rt: &R) -> io::Result<File> {
    match File::open(rt, NULL) {
        Ok(file) => Ok(file),
        Err(_) => File::open(rt, "/"),
    }
}
