//! A journal beside the plain machine and beside what its callers noted.

use crate::caller::Made;
use crate::doing::doing_of;
use crate::machine::Machine;
use std::alloc::AllocError;
use tl_model::Entry;

/// A caller's calls, and how many of them have been found.
#[derive(Drop)]
struct Reader<'a> {
    calls: &'a [Made],
    found: usize,
}

impl<'a> Reader<'a> {
    fn of(calls: &'a [Made]) -> Reader<'a> {
        Reader { calls, found: 0 }
    }

    fn next(&self) -> Option<Made> {
        self.calls.get(self.found).copied()
    }

    /// Passes over the next calls, as far as they leave no entry in this state.
    fn pass_over(&mut self, machine: &Machine, count: u64) {
        for _ in 0..self.calls.len() {
            match self.next() {
                Some(made) if machine.refuses(count, made.doing, made.told) => {
                    self.found = self.found.wrapping_add(1);
                }
                _ => return,
            }
        }
    }

    /// Whether the next call is this one.
    fn finds(&mut self, made: Made) -> bool {
        if self.next() != Some(made) {
            return false;
        }
        self.found = self.found.wrapping_add(1);
        true
    }
}

/// The callers of passes 1 to 4.
#[derive(Drop)]
struct Readers<'a> {
    one: Reader<'a>,
    two: Reader<'a>,
    three: Reader<'a>,
    four: Reader<'a>,
}

impl<'a> Readers<'a> {
    fn pass_over(&mut self, machine: &Machine, count: u64) {
        self.one.pass_over(machine, count);
        self.two.pass_over(machine, count);
        self.three.pass_over(machine, count);
        self.four.pass_over(machine, count);
    }

    /// Whether the next call of the pass is this one. The calls of pass 0 weren't noted.
    fn finds(&mut self, pass: u32, made: Made) -> bool {
        match pass {
            0 => true,
            1 => self.one.finds(made),
            2 => self.two.finds(made),
            3 => self.three.finds(made),
            4 => self.four.finds(made),
            _ => false,
        }
    }

    fn are_over(&self) -> bool {
        self.one.next().is_none()
            && self.two.next().is_none()
            && self.three.next().is_none()
            && self.four.next().is_none()
    }
}

/// Whether an entry may come, and is the next call of its pass, which was told what the machine says.
fn is_next(
    machine: &mut Machine,
    readers: &mut Readers<'_>,
    at: u64,
    entry: &Entry,
) -> Result<bool, AllocError> {
    let Some(doing) = doing_of(&entry.act) else {
        return Ok(false);
    };
    match machine.step(at, entry.pass, doing)? {
        None => Ok(false),
        Some(told) => Ok(readers.finds(entry.pass, Made { doing, told })),
    }
}

/// The number of the first entry that may not come, or isn't the next call of its pass, or whose caller was told something else
/// than the machine says; the number after all of them where a call has no entry and no cause for that; else none.
pub(crate) fn first_fault(
    mut machine: Machine,
    journal: &[Entry],
    logs: [&[Made]; 4],
) -> Result<Option<u64>, AllocError> {
    let [one, two, three, four] = logs;
    let mut readers = Readers {
        one: Reader::of(one),
        two: Reader::of(two),
        three: Reader::of(three),
        four: Reader::of(four),
    };
    let mut count = 0u64;
    for entry in journal {
        readers.pass_over(&machine, count);
        count = count.wrapping_add(1);
        if !is_next(&mut machine, &mut readers, count, entry)? {
            return Ok(Some(count));
        }
    }
    readers.pass_over(&machine, count);
    if readers.are_over() {
        Ok(None)
    } else {
        Ok(Some(count.wrapping_add(1)))
    }
}
