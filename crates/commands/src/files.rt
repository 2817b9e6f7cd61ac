// Files that the command line names.
use crate::stop::Stop;
use std::io::Read;
use std::{fs, io};

// The bytes of a file; `-` is standard input.
fn bytes_of(rt: &HostRuntime, file: &str) -> io::Result<Vec<u8>> {
    if file != "-" {
        return fs::read(rt, file);
    }
    let mut bytes = Vec::new(rt.alloc());
    rt.stdin().read_to_end(&mut bytes)?;
    Ok(bytes)
}

// The text of a job or a script.
pub(crate) fn file_text(rt: &HostRuntime, name: &str) -> Result<Vec<u8>, Stop> {
    bytes_of(rt, name).map_err(|e| Stop::said(
        rt.alloc(),
        format_args!("{name}: cannot be read: {e}"),
    ))
}
