//! Four values, two by two, as they are given to threads.

/// Four values, two by two.
pub(crate) type Four<T> = ((T, T), (T, T));

/// The first two, and the others.
pub(crate) fn two_by_two<T>(all: [T; 4]) -> Four<T> {
    let [first, second, third, fourth] = all;
    ((first, second), (third, fourth))
}

/// The first two. The others are dropped.
pub(crate) fn pair_of<T: Drop>(all: Four<T>) -> (T, T) {
    let (pair, others) = all;
    drop(others);
    pair
}

/// The first one. The others are dropped.
pub(crate) fn first_of<T: Drop>(all: Four<T>) -> T {
    let (first, second) = pair_of(all);
    drop(second);
    first
}
