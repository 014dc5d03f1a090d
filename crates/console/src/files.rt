// Files by name. They have no promise: what a file holds stands in no contract below them, so only safe and ending is proved.
use std::io::Read;

// How many bytes of the file were read, as many as there is room for; none where it cannot be read, which is said on standard error. The first read tells a folder or a broken file from an empty one.
pub fn read(rt: &HostRuntime, path: &[u8], bytes: &mut [u8]) -> Option<usize> {
    let mut file = host::open(rt, path)?;
    let n = file
        .read(bytes)
        .inspect_err(|error| host::fail(rt, path, error))
        .ok()?;
    Some(n + host::read_full(&mut file, &mut bytes[n..]))
}
