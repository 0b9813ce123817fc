//! Appends small pieces to a list of bytes: `put_text`, `put_number` and `put_hex`.

ghost use Rattle.std.specs.Prelude.{◌≡◌, ◌+◌, ◌≤◌, ◌++◌, length, decimal, OnOk, OnErr};
ghost use Rattle.arrayvec.specs.ArrayVec.{array_vec_len};
ghost use Rattle.hex.specs.Hex.{encode_lower};

use crate::Memory;
use arrayvec::ArrayVec;
use itoa::Buffer;

/// Appends the bytes, for which there is room.
pub fn append<const N: usize>(out: &mut ArrayVec<u8, N>, bytes: &[u8])
    requires { array_vec_len out.old + length bytes.now ≤ N }
    ensures items { out.new.items ≡ out.old.items ++ bytes.now }
    ensures len { array_vec_len out.new ≡ array_vec_len out.old + length bytes.now }
{
    out.try_extend_from_slice(bytes).unwrap();
}

/// Appends the bytes. If memory runs out, nothing changes.
pub fn put_text(text: &[u8], out: &mut Vec<u8>) -> Result<(), Memory>
    ensures ok { OnOk result (out.new.items ≡ out.old.items ++ text.now) }
    ensures err { OnErr result (out.new.items ≡ out.old.items) }
{
    out.extend_from_slice(text)?;
    Ok(())
}

/// Appends a text and a number after it, in decimal. If memory runs out, nothing changes.
pub fn put_number(word: &[u8], number: u64, out: &mut Vec<u8>) -> Result<(), Memory>
    ensures ok { OnOk result (out.new.items ≡ out.old.items ++ word.now ++ decimal number) }
    ensures err { OnErr result (out.new.items ≡ out.old.items) }
{
    put_both(word, Buffer::new().format(number).as_bytes(), out)
}

/// Appends a text and bytes after it, in hexadecimal. If memory runs out, nothing changes.
pub fn put_hex(word: &[u8], bytes: &[u8], out: &mut Vec<u8>) -> Result<(), Memory>
    ensures ok { OnOk result (out.new.items ≡ out.old.items ++ word.now ++ encode_lower bytes.now) }
    ensures err { OnErr result (out.new.items ≡ out.old.items) }
{
    let digits = hex::encode(*out.allocator(), bytes)?;
    put_both(word, digits.as_bytes(), out)
}

/// Appends two texts. If memory runs out, nothing changes.
fn put_both(first: &[u8], second: &[u8], out: &mut Vec<u8>) -> Result<(), Memory>
    ensures ok { OnOk result (out.new.items ≡ out.old.items ++ first.now ++ second.now) }
    ensures err { OnErr result (out.new.items ≡ out.old.items) }
{
    let length = out.len();
    put_text(first, out)?;
    match put_text(second, out) {
        Ok(()) => Ok(()),
        Err(fault) => {
            out.truncate(length);
            Err(fault)
        }
    }
}
