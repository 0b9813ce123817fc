//! Writes bytes to an output, whole or not at all.

ghost use Rattle.std.specs.Prelude.{◌≡◌, ◌≤◌, ◌++◌, length, drop};
ghost use Rattle.c_values.specs.Values.{IsPut};

use crate::code::{OK, SHORT_BUFFER};

/// Writes bytes to the start of an output that has room for them.
pub fn put_start(out: &mut [u8], bytes: &[u8])
    requires { length bytes.now ≤ length out.old }
    ensures { out.new ≡ bytes.now ++ drop (length bytes.now) out.old }
{
    out[..bytes.len()].copy_from_slice(bytes);
}

/// Writes bytes to an output, whole or not at all, and how many they are. Returns the code.
pub fn put_all(out: &mut [u8], bytes: &[u8], length: &mut usize) -> u32
    ensures { IsPut bytes.now out.old result length.new out.new }
{
    *length = bytes.len();
    if bytes.len() > out.len() {
        return SHORT_BUFFER;
    }
    put_start(out, bytes);
    OK
}
