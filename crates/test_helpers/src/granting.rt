//! Growths that are granted one after the other, each by a piece of memory of its own.

use crate::growths::all_memory;
use std::alloc::{AllocError, Global};

/// How many sizes a piece can have: 24 bytes, and then 16 more from one to the next, up to a KiB.
const SIZES: usize = 64;

/// How many freed pieces of a size the allocator keeps apart, for requests of that size alone, but for none by which a
/// list grows. Pieces that are freed beside them serve both.
const APART: usize = 7;

/// How many pieces of each size can be granted.
const EACH: usize = 8;

/// How many growths are granted at most.
const MOST: usize = 30;

/// The pieces of a size, each with one of the allocator's smallest size after it, so that no two are neighbours, and
/// how many of them are granted.
#[derive(Drop)]
struct Room {
    size: usize,
    apart: Vec<Vec<u8>>,
    pieces: Vec<Vec<u8>>,
    between: Vec<Vec<u8>>,
    granted: usize,
}

/// Takes pieces of this size, up to this many in all.
fn fill(
    alloc: Global,
    pieces: &mut Vec<Vec<u8>>,
    size: usize,
    count: usize,
) -> Result<(), AllocError> {
    for _ in pieces.len()..count {
        pieces.push(Vec::<u8>::with_capacity(alloc, size)?)?;
    }
    Ok(())
}

impl Room {
    fn new(alloc: Global, size: usize) -> Result<Room, AllocError> {
        let mut room = Room {
            size,
            apart: Vec::with_capacity(alloc, APART)?,
            pieces: Vec::with_capacity(alloc, EACH)?,
            between: Vec::with_capacity(alloc, EACH)?,
            granted: 0,
        };
        room.take(alloc)?;
        Ok(room)
    }

    /// Takes all pieces for the first time.
    fn take(&mut self, alloc: Global) -> Result<(), AllocError> {
        fill(alloc, &mut self.apart, self.size, APART)?;
        for count in 1..=EACH {
            fill(alloc, &mut self.between, 1, count)?;
            fill(alloc, &mut self.pieces, self.size, count)?;
        }
        Ok(())
    }

    /// Gives the pieces that are granted to the allocator, which keeps none of them apart.
    fn open(&mut self, alloc: Global) -> Result<(), AllocError> {
        if self.granted > 0 {
            self.apart.clear();
            self.pieces.truncate(EACH.saturating_sub(self.granted));
            fill(alloc, &mut self.apart, self.size, APART)?;
        }
        Ok(())
    }

    /// Takes them again.
    fn close(&mut self, alloc: Global) -> Result<(), AllocError> {
        fill(alloc, &mut self.pieces, self.size, EACH)
    }
}

fn rooms(alloc: Global) -> Result<Vec<Room>, AllocError> {
    let mut rooms = Vec::with_capacity(alloc, SIZES)?;
    for k in 0..SIZES {
        rooms.push(Room::new(alloc, 24 + 16 * k)?)?;
    }
    Ok(rooms)
}

/// What a call answers while there is no memory but the pieces that are granted.
fn answer_within<E: Drop, F: Fn() -> Option<E>>(
    alloc: Global,
    rooms: &mut [Room],
    call: &F,
) -> Result<Option<E>, AllocError>
    requires { F.IsAlwaysCallable call.now }
{
    for room in rooms.iter_mut() {
        room.open(alloc)?;
    }
    let answer = call();
    for room in rooms.iter_mut() {
        room.close(alloc)?;
    }
    Ok(answer)
}

/// Grants a piece more, of the smallest size with which another answer comes than the last one; the answer, or none
/// where the last one comes with each size.
fn grant<E: PartialEq + Drop, F: Fn() -> Option<E>>(
    alloc: Global,
    rooms: &mut [Room],
    last: Option<&Option<E>>,
    call: &F,
) -> Result<Option<Option<E>>, AllocError>
    requires { F.IsAlwaysCallable call.now }
{
    for k in 0..rooms.len() {
        let granted = rooms[k].granted;
        if granted < EACH {
            rooms[k].granted = granted + 1;
            let answer = answer_within(alloc, rooms, call)?;
            if last != Some(&answer) {
                return Ok(Some(answer));
            }
            rooms[k].granted = granted;
        }
    }
    Ok(None)
}

/// Appends what a call answers with none granted, and then with one piece more after the other, until it succeeds.
fn grant_each<E: PartialEq + Drop, F: Fn() -> Option<E>>(
    alloc: Global,
    rooms: &mut [Room],
    answers: &mut Vec<Option<E>>,
    call: &F,
) -> Result<(), AllocError>
    requires { F.IsAlwaysCallable call.now }
{
    answers.push(answer_within(alloc, rooms, call)?)?;
    for _ in 1..MOST {
        let Some(answer) = grant(alloc, rooms, answers.last(), call)? else {
            break;
        };
        let succeeds = answer.is_none();
        answers.push(answer)?;
        if succeeds {
            break;
        }
    }
    Ok(())
}

/// What a call answers with no growth granted, with the first alone, with the first two, and so on, and then `None`,
/// as it succeeds: its answers have to differ from growth to growth. The size of each growth is looked for, and a
/// piece of it is there for this growth alone.
///
/// Unlike `answers_growth_by_growth` it sees those after a list that doubles, too. Only a growth of the size of
/// a piece that the call gave back before takes that one, and is not seen.
///
/// # Errors
///
/// `AllocError` where there is no memory for the pieces and the answers. What the call is refused is an answer.
pub fn answers_one_by_one<E: PartialEq + Drop, F: Fn() -> Option<E>>(
    alloc: Global,
    call: F,
) -> Result<Vec<Option<E>>, AllocError>
    requires { F.IsAlwaysCallable call }
{
    let mut answers = Vec::with_capacity(alloc, MOST)?;
    let mut rooms = rooms(alloc)?;
    let held = all_memory(alloc)?;
    let granted = grant_each(alloc, &mut rooms, &mut answers, &call);
    drop(held);
    granted?;
    Ok(answers)
}
