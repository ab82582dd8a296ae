// The standard descriptors.
use std::fs::{File, Files, OpenOptions};
use std::os::fd::AsRawFd;

/// What stands for a descriptor that is closed.
const NOTHING: &str = "/dev/null";

/// What a program holds in place of the standard descriptors that were closed when it was started.
#[derive(Drop)]
pub struct Standard {
    input: Option<File>,
    output: Option<File>,
    errors: Option<File>,
}

/// Takes those of the descriptors 0 to 2 that are closed, so that no file and no socket that is opened later gets one, for as
/// long as the result is kept. Each is given what can't be used as it is: 0 can't be read, and 1 and 2 can't be written.
/// Nothing may be open that was opened by this process.
pub fn hold_standard<R: Files<File = File>>(rt: &R) -> Standard {
    Standard {
        input: hold(rt, 0),
        output: hold(rt, 1),
        errors: hold(rt, 2),
    }
}

// The null device in the place of a descriptor, if that is the lowest that is closed.
fn hold<R: Files<File = File>>(rt: &R, standard: i32) -> Option<File> {
    let held = if standard == 0 {
        OpenOptions::new().write(true).open(rt, NOTHING)
    } else {
        File::open(rt, NOTHING)
    };
    match held {
        Ok(file) if file.as_raw_fd() == standard => Some(file),
        _ => None,
    }
}
