// Lists in fixed memory, and sets of the values 0 to 63 as the bits of a number.

pub(crate) const SHORT: usize = 40;

pub(crate) const LONG: usize = 4104;

// At most N items; those from `length` on are blank.
#[derive(Clone, Copy, PartialEq)]
pub(crate) struct List<T: Copy, const N: usize> {
    items: [T; N],
    length: usize,
}

impl<T: Copy, const N: usize> List<T, N> {
    pub(crate) fn new(blank: T) -> Self {
        List {
            items: [blank; N],
            length: 0,
        }
    }

    pub(crate) fn len(&self) -> usize {
        self.length
    }

    pub(crate) fn is_empty(&self) -> bool {
        self.length == 0
    }

    pub(crate) fn is_full(&self) -> bool {
        N <= self.length
    }

    pub(crate) fn as_slice(&self) -> &[T] {
        &self.items[..self.length.min(N)]
    }

    pub(crate) fn as_mut_slice(&mut self) -> &mut [T] {
        let length = self.length.min(N);
        &mut self.items[..length]
    }

    // One item more, if there is a place for it.
    pub(crate) fn push(&mut self, item: T) {
        if self.length < N {
            self.items[self.length] = item;
            self.length += 1;
        }
    }

    // The item goes to the place, if the list reaches so far.
    pub(crate) fn put(&mut self, place: u8, item: T) {
        if let Some(there) = self.as_mut_slice().get_mut(usize::from(place)) {
            *there = item;
        }
    }

    pub(crate) fn truncate(&mut self, length: usize) {
        self.length = self.length.min(length);
    }
}

// What stands at the place; 0 where the items do not reach so far.
pub(crate) fn at<T: Copy + Default>(items: &[T], place: u8) -> T {
    items.get(usize::from(place)).copied().unwrap_or_default()
}

// The set of one value; the empty set for a value from 64 on.
pub(crate) fn only(v: u8) -> u64 {
    1u64.checked_shl(u32::from(v)).unwrap_or(0)
}

pub(crate) fn has(list: u64, v: u8) -> bool {
    list & only(v) != 0
}

// The lowest value of the list that is not below v; 64 where there is none.
pub(crate) fn from(list: u64, v: u8) -> u8 {
    if v < 64 {
        return (list >> v << v).trailing_zeros() as u8;
    }
    64
}
