// What a call is lent.

// The first so many places of a slice, or all of them.
pub(crate) fn front<T>(slice: &mut [T], n: u16) -> &mut [T] {
    let end = usize::from(n).min(slice.len());
    &mut slice[..end]
}
