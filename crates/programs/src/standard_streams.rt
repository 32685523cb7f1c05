//! The standard streams of a program, which may have been started with some of them closed.

use std::fs::OpenOptions;
use std::mem;
use std::os::fd::AsRawFd;
use std::rt::Files;

/// The number of the standard error, which is the highest of the standard streams.
const STANDARD_ERROR: i32 = 2;

/// Opens the null device in the place of each standard stream that is closed, for as long as the program lasts: else the next
/// file or socket would get its number, and what is told on the stream. It is opened for reading, so a closed output still
/// can't be written. Where the device can't be opened, the streams stay closed.
pub fn hold_standard_streams<R: Files>(rt: &R)
where
    R::File: AsRawFd,
{
    let mut how = OpenOptions::new();
    how.read(true);
    for _ in 0..=STANDARD_ERROR {
        let Ok(device) = rt.open_file(&how, "/dev/null") else {
            return;
        };
        if device.as_raw_fd() > STANDARD_ERROR {
            return;
        }
        mem::forget(device);
    }
}
