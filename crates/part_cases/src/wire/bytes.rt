use anyhow::{Result, bail};
use std::alloc::Global;

const DIGITS: [char; 16] = [
    '0', '1', '2', '3', '4', '5', '6', '7', '8', '9', 'a', 'b', 'c', 'd', 'e', 'f',
];

/// The bytes that hexadecimal digits say, two digits a byte.
pub fn bytes_of(alloc: Global, digits: &str) -> Result<Vec<u8>> {
    let mut bytes = Vec::new(alloc);
    let mut high = None;
    for &digit in digits.as_bytes() {
        let low = value_of(digit)?;
        high = match high {
            None => Some(low),
            Some(high) => {
                bytes.push(high.wrapping_mul(16).wrapping_add(low))?;
                None
            }
        };
    }
    match high {
        None => Ok(bytes),
        Some(_) => bail!("half a byte"),
    }
}

fn value_of(digit: u8) -> Result<u8> {
    match digit {
        b'0'..=b'9' => Ok(digit.saturating_sub(b'0')),
        b'a'..=b'f' => Ok(digit.saturating_sub(b'a').saturating_add(10)),
        _ => bail!("no digit"),
    }
}

/// Writes bytes as digits.
pub fn write_bytes(out: &mut String, bytes: &[u8]) -> Result<()> {
    for &byte in bytes {
        write_digit(out, byte >> 4)?;
        write_digit(out, byte & 15)?;
    }
    Ok(())
}

fn write_digit(out: &mut String, value: u8) -> Result<()> {
    if let Some(&digit) = DIGITS.get(usize::from(value)) {
        out.push(digit)?;
    }
    Ok(())
}
