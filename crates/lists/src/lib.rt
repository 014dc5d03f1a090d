// Lists by value, and the thin function that fills a lent list of records from one.
#![tactic(auto)]

ghost use Rattle.std.specs.Prelude.{◌≡◌, length};
ghost use Rattle.lists.specs.Filling.{stored, filled};

use meaning::{Entry, ErrorRecord, HEIGHTS, MAX_ERRORS};

#[derive(Clone, Copy)]
pub struct Records<T, const N: usize> {
    pub list: [T; N],
    pub count: usize,
}

// The error records of a feed.
pub type Errors = Records<ErrorRecord, MAX_ERRORS>;

// The entries of a stack that is read out.
pub type Entries = Records<Entry, HEIGHTS>;

// How many records go into a lent list of len places: none where it has not N.
pub fn stores<const N: usize>(len: usize, count: usize) -> usize
    ensures { result ≡ stored N len count }
{
    if len == N && count <= N { count } else { 0 }
}

// The records go into the lent list; what stands past them is kept. A list of another length is left as it is.
pub fn fill<T: Copy, const N: usize>(out: &mut [T], records: &Records<T, N>) -> usize
    ensures stores { result ≡ stored N (length out.old) records.now.count }
    ensures writes { out.new ≡ filled records.now.list out.old result }
{
    let n = stores::<N>(out.len(), records.count);
    out[..n].copy_from_slice(&records.list[..n]);
    n
}
