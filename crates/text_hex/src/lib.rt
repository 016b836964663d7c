// Bytes as text: a checksum, and hexadecimal.

#![tactic(auto)]

ghost use Rattle.std.specs.Prelude.{◌≡◌, ◌+◌, ◌*◌, ◌^◌, ◌<◌, length};
ghost use Rattle.text.specs.Text.{Room, Appends};
ghost use Rattle.text_hex.specs.Dump.{adler as adler_of, hex};

use text::Writer;

// The modulus of Adler-32, and where its sums are reduced: a step more still fits.
const MODULUS: u64 = 65521;

const LARGE: u64 = 281474976710656;

// Adler-32 of the bytes.
pub fn adler(bytes: &[u8]) -> u64
    ensures { (result ≡ adler_of bytes.now) × (result < 2 ^ 32) }
{
    let mut a: u64 = 1;
    let mut b: u64 = 0;
    for &byte in bytes {
        a += byte as u64;
        b += a;
        if LARGE <= b {
            a %= MODULUS;
            b %= MODULUS;
        }
    }
    b % MODULUS * 65536 + a % MODULUS
}

// Writes bytes in hexadecimal, or a dash for none.
pub fn put_hex(writer: &mut Writer, bytes: &[u8])
    requires { Room writer.old (2 * length bytes.now + 1) }
    ensures { Appends writer.old (hex bytes.now) writer.new }
{
    if bytes.is_empty() {
        writer.put(b"-");
    } else {
        let end = writer.at + 2 * bytes.len();
        hex::encode_to_slice(bytes, &mut writer.out[writer.at..end]).unwrap();
        writer.at = end;
    }
}
