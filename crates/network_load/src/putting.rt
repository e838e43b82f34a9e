// A new device that is put, and what is printed of it.
ghost use Rattle.std.specs.Prelude.{◌≡◌, ◌≤◌};
ghost use Rattle.lab_parts.specs.Places.{Prints};

use lab_parts::{Places, print, told, told_of};
use std::io::Write;

/// Puts a file with these bytes where nothing stands, prints a text of it, and answers the exit status.
pub(crate) fn put<R, O, E>(
    rt: &R,
    path: &str,
    bytes: &[u8],
    text: &str,
    out: &mut O,
    err: &mut E,
) -> u8
where
    R: Places,
    O: Write,
    E: Write,
    ensures few { result ≤ 1 }
    ensures put { result ≡ 0 → R.puts path.now bytes.now }
    ensures printed { result ≡ 0
        → Prints (record { contents = O.contents; before = out.old; after = out.new }) text.now }
{
    if let Err(refused) = rt.put_new(path, bytes) {
        return told_of(err, path, refused);
    }
    match print(out, text.as_bytes()) {
        Ok(()) => 0,
        Err(refused) => told(err, 1, refused),
    }
}
