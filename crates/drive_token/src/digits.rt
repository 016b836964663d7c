// Numbers and bytes of a token.
ghost use Rattle.std.specs.Prelude.{true, ◌&&◌, cond, [], ◌≡◌, ◌+◌, ◌-◌, ◌*◌, ◌≤◌, leb, length, IfSome};
ghost use Rattle.drive_token.specs.Tokens.{is_digit, value, is_decimal, is_number, offset_value, nibble as nibble_of, all_hex, digit_pairs, is_bytes, pairs, over};

// The number of at most `max` that a token says.
pub fn number(token: &[u8], max: u64) -> Option<u64>
    ensures value { result ≡ cond (is_number max token.now) (Some (value token.now)) None }
    ensures le_max { IfSome result (λ n. n ≤ max) }
{
    if token.is_empty() {
        return None;
    }
    let mut value = 0;
    for &c in token {
        value = with_digit(value, c, max)?;
    }
    Some(value)
}

// A number with one digit more.
fn with_digit(n: u64, c: u8, max: u64) -> Option<u64>
    ensures { result ≡ cond (is_digit c && leb (n * 10 + (c - 48)) max) (Some (n * 10 + (c - 48))) None }
{
    if !c.is_ascii_digit() {
        return None;
    }
    let tens = n.checked_mul(10)?;
    let value = tens.checked_add(u64::from(c - b'0'))?;
    if value <= max { Some(value) } else { None }
}

// An offset, which may be any number: one past the largest is told as the largest.
pub fn offset(token: &[u8]) -> Option<u64>
    ensures { result ≡ cond (is_decimal token.now) (Some (offset_value token.now)) None }
{
    if (0 < token.len()) & token.iter().all(|c| c.is_ascii_digit()) {
        Some(number(token, u64::MAX).unwrap_or(u64::MAX))
    } else {
        None
    }
}

// How many bytes a token says in hexadecimal. The digits are all looked at before a byte is written.
pub fn take_hex(hex: &[u8], bytes: &mut [u8]) -> Option<usize>
    requires { 2000 ≤ length bytes.old }
    ensures count { result ≡ cond (is_bytes hex.now) (Some (length (pairs hex.now))) None }
    ensures bytes_after { bytes.new ≡ over (cond (is_bytes hex.now) (pairs hex.now) []) bytes.old }
{
    if crate::is(hex, b"-") {
        return Some(0);
    }
    if !are_pairs(hex) {
        return None;
    }
    put_pairs(hex, bytes);
    Some(hex.len() / 2)
}

fn are_pairs(hex: &[u8]) -> bool
    ensures { result ≡ digit_pairs hex.now }
{
    let digits = hex.len();
    (0 < digits) & (digits % 2 == 0) & (digits <= 4000) & hex.iter().all(|c| nibble(*c) < 16)
}

// Writes a byte for each two digits.
fn put_pairs(hex: &[u8], bytes: &mut [u8])
    requires hex_value { all_hex hex.now ≡ true }
    requires hex_len_bound { (length hex.now ≤ 4000) × (2000 ≤ length bytes.old) }
    ensures { bytes.new ≡ over (pairs hex.now) bytes.old }
{
    for i in 0..hex.len() / 2 {
        bytes[i] = nibble(hex[2 * i]) * 16 + nibble(hex[2 * i + 1]);
    }
}

// The value of a hexadecimal digit, or 16. An Option is no plainer: put_pairs adds up digits that are_pairs has looked at, and would unwrap two.
#[tactic(auto, unfolding(crate::specs::Tokens::nibble))]
fn nibble(c: u8) -> u8
    ensures { result ≡ nibble_of c }
{
    match c {
        b'0'..=b'9' => c - b'0',
        b'a'..=b'f' => c - b'a' + 10,
        _ => 16,
    }
}
