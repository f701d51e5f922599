use crate::files::{tell_done, tell_read};
use im_io::{HostShelf, HostSink, read_whole, send, store};
use im_trial::{Case, Stop};
use std::fs;

const FOLDER: &str = "folder_of_the_trial";

const PATH: &str = "folder_of_the_trial/text";

// What a file of the host is read as, up to limits.
fn read_from_the_host(rt: &HostRuntime, path: &str, limits: &[u64], case: &mut Case) {
    let mut shelf = HostShelf::new(rt);
    for limit in limits {
        tell_read(read_whole(case.alloc, &mut shelf, path, *limit), case);
    }
}

fn store_on_the_host(rt: &HostRuntime, case: &mut Case) {
    let mut shelf = HostShelf::new(rt);
    tell_done(store(&mut shelf, PATH, b"sensor"), case);
}

fn send_to_the_host(rt: &HostRuntime, case: &mut Case) -> Result<(), Stop> {
    let mut sink = HostSink::new(fs::create(rt, PATH)?);
    tell_done(send(&mut sink, b"one"), case);
    tell_done(send(&mut sink, b"two"), case);
    Ok(())
}

fn try_the_host(rt: &HostRuntime, case: &mut Case) -> Result<(), Stop> {
    store_on_the_host(rt, case);
    fs::create_dir(rt, FOLDER)?;
    read_from_the_host(rt, PATH, &[9], case);
    store_on_the_host(rt, case);
    read_from_the_host(rt, PATH, &[6, 7, 5], case);
    read_from_the_host(rt, FOLDER, &[9], case);
    send_to_the_host(rt, case)?;
    read_from_the_host(rt, PATH, &[6], case);
    fs::remove_dir_all(rt, FOLDER)?;
    Ok(())
}

/// `host`, a name: a file is stored before its folder is there, read, stored, read up to three
/// limits, its folder is read, two texts are sent to it, and it is read.
pub(crate) fn host(rt: &HostRuntime, case: &mut Case) {
    let _ = fs::remove_dir_all(rt, FOLDER);
    let tried = try_the_host(rt, case);
    case.take(tried);
}
