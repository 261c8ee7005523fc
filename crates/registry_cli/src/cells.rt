//! The numbers and values of a database file: those of its headers, and those of the record in a cell of a table. The format is
//! that of SQLite's "Database File Format", <https://www.sqlite.org/fileformat2.html>.

/// The number of four bytes from a place on, the first of which counts most.
pub fn four_at(bytes: &[u8], at: usize) -> Option<u32> {
    match bytes.get(at..at.checked_add(4)?)? {
        [a, b, c, d] => Some(u32::from_be_bytes([*a, *b, *c, *d])),
        _ => None,
    }
}

/// The number of two bytes from a place on, the first of which counts most.
pub fn two_at(bytes: &[u8], at: usize) -> Option<usize> {
    match bytes.get(at..at.checked_add(2)?)? {
        [a, b] => Some(usize::from(*a) * 256 + usize::from(*b)),
        _ => None,
    }
}

/// The number of variable length from a place on, and the place after it.
fn varint_at(bytes: &[u8], at: usize) -> Option<(usize, usize)> {
    let mut value = 0usize;
    let mut at = at;
    for _ in 0..8 {
        let byte = usize::from(*bytes.get(at)?);
        at = at.checked_add(1)?;
        value = value.wrapping_mul(128).wrapping_add(byte % 128);
        if byte < 128 {
            return Some((value, at));
        }
    }
    let last = usize::from(*bytes.get(at)?);
    Some((
        value.wrapping_mul(256).wrapping_add(last),
        at.checked_add(1)?,
    ))
}

/// The length of a value in a record, by its kind.
fn length_of(kind: usize) -> usize {
    match kind {
        1 => 1,
        2 => 2,
        3 => 3,
        4 => 4,
        5 => 6,
        6 | 7 => 8,
        _ => kind.saturating_sub(12) / 2,
    }
}

/// The whole number of these bytes, if it is not negative.
fn whole(kind: usize, bytes: &[u8]) -> Option<u64> {
    match kind {
        8 => Some(0),
        9 => Some(1),
        1..=6 => {
            if *bytes.first()? >= 128 {
                return None;
            }
            let mut value = 0u64;
            for byte in bytes {
                value = value.wrapping_mul(256).wrapping_add(u64::from(*byte));
            }
            Some(value)
        }
        _ => None,
    }
}

/// The kind and the bytes of the value with this index in the record of a table's cell.
fn value_at(cell: &[u8], index: usize) -> Option<(usize, &[u8])> {
    let (_, at) = varint_at(cell, 0)?;
    let (_, begin) = varint_at(cell, at)?;
    let (head, mut at) = varint_at(cell, begin)?;
    let mut place = begin.checked_add(head)?;
    for _ in 0..index {
        let (kind, next) = varint_at(cell, at)?;
        place = place.checked_add(length_of(kind))?;
        at = next;
    }
    let (kind, _) = varint_at(cell, at)?;
    Some((kind, cell.get(place..place.checked_add(length_of(kind))?)?))
}

/// A text in the record of a table's cell.
pub fn text_at(cell: &[u8], index: usize) -> Option<&str> {
    let (_, bytes) = value_at(cell, index)?;
    std::str::from_utf8(bytes).ok()
}

/// A whole number in the record of a table's cell.
pub fn number_at(cell: &[u8], index: usize) -> Option<u64> {
    let (kind, bytes) = value_at(cell, index)?;
    whole(kind, bytes)
}
