ghost use Rattle.std.specs.Prelude.{◌≡◌, ◌+◌, ◌*◌, ◌≤◌, ◌++◌, length};
ghost use Rattle.arrayvec.specs.ArrayVec.{array_vec_len};
ghost use Rattle.trace_print.specs.Digits.{bytes_text, hex_digits};

use crate::lines::Line;
use itoa::{Buffer, Integer};

const DIGITS: &[u8; 16] = b"0123456789ABCDEF";

/// Appends a text.
pub(crate) fn push_text(line: &mut Line, text: &[u8])
    requires { array_vec_len line.old + length text.now ≤ 160 }
    ensures text { line.new.items ≡ line.old.items ++ text.now }
    ensures len { array_vec_len line.new ≡ array_vec_len line.old + length text.now }
{
    line.try_extend_from_slice(text).unwrap();
}

/// Appends a number in decimal.
pub(crate) fn push_decimal<I: Integer>(line: &mut Line, value: I)
    requires { array_vec_len line.old + I.MAX_STR_LEN ≤ 160 }
    ensures text { line.new.items ≡ line.old.items ++ I.text value }
    ensures len { array_vec_len line.new ≤ array_vec_len line.old + I.MAX_STR_LEN }
{
    push_text(line, Buffer::new().format(value).as_bytes());
}

/// Appends the last hexadecimal digits of a number, as many as `count` says, the most significant first.
pub(crate) fn push_hex(line: &mut Line, count: u32, value: u32)
    requires width { count ≤ 8 }
    requires room { array_vec_len line.old + count ≤ 160 }
    ensures text { line.new.items ≡ line.old.items ++ hex_digits count value }
    ensures len { array_vec_len line.new ≡ array_vec_len line.old + count }
{
    for place in (0..count).rev() {
        let digit = (value >> (4 * place)) % 16;
        line.push(DIGITS[digit as usize]);
    }
}

/// Appends bytes, each as two hexadecimal digits.
#[tactic(auto, using(crate::proofs::ByteTexts::byte_texts))]
pub(crate) fn push_bytes(line: &mut Line, bytes: &[u8])
    requires few { length bytes.now ≤ 32 }
    requires room { array_vec_len line.old ≤ 33 }
    ensures text { line.new.items ≡ line.old.items ++ bytes_text bytes.now }
    ensures len { array_vec_len line.new ≤ array_vec_len line.old + 64 }
{
    let mut room = [0; 64];
    let digits = &mut room[..2 * bytes.len()];
    hex::encode_to_slice(bytes, digits).unwrap();
    digits.make_ascii_uppercase();
    push_text(line, digits);
}
