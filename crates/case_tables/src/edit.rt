// Edits of a file.

/// An edit of a file.
#[derive(Drop)]
pub enum Edit {
    /// Only so many of its first bytes are kept.
    Keep(usize),
    /// These bytes come after it.
    Append(Vec<u8>),
    /// These bytes stand in the place of those from there on.
    At(usize, Vec<u8>),
    /// So many zeros come after it.
    Zeros(usize),
}

/// Why an edit was not made.
#[derive(Clone, Copy, Debug, thiserror::Error)]
pub enum EditError {
    #[error("the edit reaches beyond the end")]
    Beyond,
    #[error("out of memory")]
    Memory,
}

/// A file with edits, which are made one after the other.
pub fn edited(bytes: Vec<u8>, edits: &[Edit]) -> Result<Vec<u8>, EditError> {
    let mut bytes = bytes;
    for edit in edits {
        apply(&mut bytes, edit)?;
    }
    Ok(bytes)
}

// Makes one edit.
fn apply(bytes: &mut Vec<u8>, edit: &Edit) -> Result<(), EditError> {
    match edit {
        Edit::Keep(count) => {
            bytes.truncate(*count);
            Ok(())
        }
        Edit::Append(more) => bytes.extend_from_slice(more).map_err(|_| EditError::Memory),
        Edit::At(place, other) => overwrite(bytes, *place, other),
        Edit::Zeros(count) => {
            let length = bytes.len().saturating_add(*count);
            bytes.resize(length, 0).map_err(|_| EditError::Memory)
        }
    }
}

// Puts bytes in the place of those from a place on.
fn overwrite(bytes: &mut [u8], place: usize, other: &[u8]) -> Result<(), EditError> {
    let end = place.saturating_add(other.len());
    let Some(part) = bytes.get_mut(place..end) else {
        return Err(EditError::Beyond);
    };
    part.copy_from_slice(other);
    Ok(())
}
