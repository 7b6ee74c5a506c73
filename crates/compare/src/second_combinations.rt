// Every choice of one value from each of some lists, in turn.
ghost use Rattle.std.specs.Iterator.{at_most};

use crate::lists::{List, SHORT, at, from};

pub(crate) type Values = List<u8, SHORT>;

// The combinations that are still to come; the last list's value is the first to rise.
#[derive(Drop)]
pub(crate) struct Combinations<'a> {
    lists: &'a [u64],
    values: Values,
    left: u64,
}

impl<'a> Combinations<'a> {
    pub(crate) fn of(lists: &'a [u64]) -> Combinations<'a> {
        let mut values = List::new(0);
        for list in lists {
            values.push(from(*list, 0));
        }
        let left = lists.iter().fold(1u64, |total, list| {
            total.wrapping_mul(u64::from(list.count_ones()))
        });
        Combinations {
            lists,
            values,
            left,
        }
    }
}

impl Iterator for Combinations<'_> {
    type Item = Values;

    ghost remaining = { λ s. at_most s.left };

    fn next(&mut self) -> Option<Values> {
        if self.left == 0 {
            return None;
        }
        self.left -= 1;
        let values = self.values;
        rise(self.lists, self.values.as_mut_slice());
        Some(values)
    }
}

// The next combination: the last value that can rises, and those behind it are the lowest.
fn rise(lists: &[u64], values: &mut [u8]) {
    for (value, list) in values.iter_mut().zip(lists).rev() {
        let higher = from(*list, value.wrapping_add(1));
        if higher < 64 {
            *value = higher;
            return;
        }
        *value = from(*list, 0);
    }
}
