// Bytes put behind the last record, and a gap that is closed.
#![tactic(auto)]

ghost use Rattle.std.specs.Prelude.{◌≡◌, ◌+◌, ◌≤◌, length};
ghost use Rattle.paper_catalogue.specs.Catalogue.{with_record, without_record};
ghost use Rattle.catalogue_bytes.specs.Moving.{put_at, closed_at};

// Puts the bytes from the offset on, if they fit.
pub fn put(catalogue: &mut [u8], at: usize, bytes: &[u8])
    ensures { catalogue.new ≡ put_at at bytes.now catalogue.old }
{
    let room = catalogue.len();
    if room < bytes.len() {
        return;
    }
    if room - bytes.len() < at {
        return;
    }
    put_bytes(catalogue, at, bytes);
}

fn put_bytes(catalogue: &mut [u8], at: usize, bytes: &[u8])
    requires { at + length bytes.now ≤ length catalogue.old }
    ensures { catalogue.new ≡ with_record at bytes.now catalogue.old }
{
    for i in 0..bytes.len() {
        catalogue[at + i] = bytes[i];
    }
}

// Takes n bytes from the offset on away, if they are there: those behind move up, and the freed bytes at the end are zero.
pub fn close(catalogue: &mut [u8], at: usize, n: usize)
    ensures { catalogue.new ≡ closed_at at n catalogue.old }
{
    let room = catalogue.len();
    if room < n {
        return;
    }
    if room - n < at {
        return;
    }
    close_gap(catalogue, at, n);
}

fn close_gap(catalogue: &mut [u8], at: usize, n: usize)
    requires { at + n ≤ length catalogue.old }
    ensures { catalogue.new ≡ without_record at n catalogue.old }
{
    let freed = catalogue.len() - n;
    catalogue.copy_within(at + n.., at);
    catalogue[freed..].fill(0);
}
