// How a word writes bytes.
use crate::out::Out;

fn push_byte(out: &mut Out, byte: u8) {
    match byte {
        b'\\' => out.push_str("\\x5C"),
        0x21..=0x7E => out.put(char::from(byte)),
        _ => out.put(format_args!("\\x{byte:02X}")),
    }
}

/// The word for these bytes.
pub fn push_text(out: &mut Out, bytes: &[u8]) {
    if bytes.is_empty() {
        out.push_str("\\-");
    }
    for byte in bytes {
        push_byte(out, *byte);
    }
}
