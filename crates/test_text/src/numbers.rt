// Decimal numbers of 64 bits, read from text.

// Digits alone: `parse` would take a sign too.
fn number_in(digits: &str) -> Option<u64> {
    if !digits.bytes().all(|b| b.is_ascii_digit()) {
        return None;
    }
    digits.parse().ok()
}

// Just so many numbers, with one space between each two.
pub fn take<const N: usize>(text: &str) -> Option<[u64; N]> {
    let mut parts = text.split(' ');
    let mut numbers = [0; N];
    for number in &mut numbers {
        *number = number_in(parts.next()?)?;
    }
    match parts.next() {
        None => Some(numbers),
        Some(_) => None,
    }
}
