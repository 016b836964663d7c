// Text into a lent buffer: bytes as they are, and numbers in decimal.

#![tactic(auto)]

ghost use Rattle.std.specs.Prelude.{[], ◌∷◌, ◌++◌, ◌+◌, ◌*◌, length};
ghost use Rattle.text.specs.Text.{decimal, filled, Room, Appends};

// What stands for a number in a form.
const HASH: u8 = b'#';

// A lent buffer, and the place in it up to which it is written.
// No `write!` with a Display: std promises its text where it answers Ok, and not that it does where there is room; these always write.
#[derive(Drop)]
pub struct Writer<'a> {
    pub out: &'a mut [u8],
    pub at: usize,
}

impl<'a> Writer<'a> {
    // Writes a text.
    pub fn put(&mut self, text: &[u8])
        requires { Room self.old (length text.now) }
        ensures { Appends self.old text.now self.new }
    {
        let end = self.at + text.len();
        self.out[self.at..end].copy_from_slice(text);
        self.at = end;
    }

    // Writes a byte.
    fn put_byte(&mut self, byte: u8)
        requires { Room self.old 1 }
        ensures { Appends self.old (byte ∷ []) self.new }
    {
        self.out[self.at] = byte;
        self.at += 1;
    }

    // Writes a number in decimal, without leading zeros.
    pub fn put_decimal(&mut self, n: u64)
        requires { Room self.old (length (decimal n)) }
        ensures { Appends self.old (decimal n) self.new }
    {
        self.put(itoa::Buffer::new().format(n).as_bytes());
    }

    // Writes a key and its number.
    pub fn put_field(&mut self, key: &[u8], n: u64)
        requires { Room self.old (length key.now + length (decimal n)) }
        ensures { Appends self.old (key.now ++ decimal n) self.new }
    {
        self.put(key);
        self.put_decimal(n);
    }

    // Writes a form, a text in which each hash stands for the next of some numbers, and for itself where none is left. A number has at
    // most 20 digits.
    pub fn put_form(&mut self, form: &[u8], numbers: &[u64])
        requires { Room self.old (length form.now + 20 * length numbers.now) }
        ensures { Appends self.old (filled form.now numbers.now) self.new }
    {
        let mut left = numbers;
        for &byte in form {
            match left.split_first() {
                Some((&n, rest)) if byte == HASH => {
                    self.put_decimal(n);
                    left = rest;
                }
                _ => self.put_byte(byte),
            }
        }
    }
}
