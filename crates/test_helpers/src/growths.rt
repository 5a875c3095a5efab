//! Memory that is held, so that growths of others are refused.

use std::alloc::{AllocError, Global};
use std::io;

/// How many pieces are taken at most.
const PIECES: usize = 60_000;

/// The size of the largest, which few allocators give.
const LARGEST: usize = 1 << 46;

/// Takes pieces of this size until one is refused, and 10,000 at most.
fn take_pieces(alloc: Global, size: usize, pieces: &mut Vec<Vec<u8>>) -> Result<(), AllocError> {
    for _ in 0..10_000u64 {
        match Vec::<u8>::with_capacity(alloc, size) {
            Ok(piece) => pieces.push(piece)?,
            Err(_) => break,
        }
    }
    Ok(())
}

/// Takes all the memory that the allocator gives, in ever smaller pieces.
///
/// The allocator keeps small pieces that were freed apart by their size, 16 bytes from one to the
/// next, and gives them to requests of that size alone: so these are asked for, too.
fn take_all(alloc: Global, pieces: &mut Vec<Vec<u8>>) -> Result<(), AllocError> {
    let mut size = LARGEST;
    for _ in 0..44u64 {
        take_pieces(alloc, size, pieces)?;
        size /= 2;
    }
    for k in 0..66usize {
        take_pieces(alloc, 8 + 16 * k, pieces)?;
    }
    Ok(())
}

/// More than any call takes of the stack while memory is held.
const DEPTH: usize = 1 << 20;

/// Has the stack grow by this many bytes, and answers one of them.
///
/// A stack grows as its pages are used, and no more once all below it is taken: what goes deeper then ends by a
/// signal. The bytes that are changed and answered are known at run time alone, so that the array is not left out.
#[inline(never)]
fn grow_stack(changed: usize, answered: usize) -> u8 {
    let mut bytes = [1u8; DEPTH];
    bytes[changed % DEPTH] = 2;
    bytes[answered % DEPTH]
}

/// More than by how much of the stack one call that takes all memory lies below another in a test.
const BELOW: usize = 1 << 18;

/// The same from this much further down.
///
/// The allocator keeps some of what it was given back, and this may be right below the stack: no page is
/// added to that then. So the stack has all its pages before memory is taken for the first time.
#[inline(never)]
fn grow_deeper(changed: usize, answered: usize) -> u8 {
    let mut bytes = [1u8; BELOW];
    bytes[changed % BELOW] = grow_stack(changed, answered);
    bytes[answered % BELOW]
}

/// All the memory that the allocator gives: while it is held, the next growth is refused.
///
/// # Errors
///
/// `AllocError` where memory is refused for the list of what is held, which comes first.
pub fn all_memory(alloc: Global) -> Result<Vec<Vec<u8>>, AllocError> {
    let mut pieces = Vec::with_capacity(alloc, PIECES)?;
    take_pieces(alloc, LARGEST, &mut pieces)?;
    let byte = grow_stack(pieces.len(), pieces.len() / 2);
    pieces.push(Vec::<u8>::with_capacity(alloc, usize::from(byte))?)?;
    take_all(alloc, &mut pieces)?;
    Ok(pieces)
}

/// Whether memory has an end: all that the allocator gives can be held, and the next growth is refused then.
///
/// It has none under the sanitizer of `rt try`, whose list of pieces is full before. There a line says that what
/// needs it is skipped.
///
/// # Errors
///
/// That of the output, where the line cannot be printed.
pub fn memory_ends(rt: &(impl AllocGlobal + Print)) -> io::Result<bool> {
    let ends = all_is_taken(rt.alloc());
    if !ends {
        println!(rt; "skipped: the allocator gives more memory than can be held")?;
    }
    Ok(ends)
}

/// Whether a byte or two more are refused while all memory is held.
fn all_is_taken(alloc: Global) -> bool {
    let given = usize::from(Vec::<u8>::with_capacity(alloc, LARGEST).is_ok());
    let more = usize::from(grow_deeper(given, given / 2));
    match all_memory(alloc) {
        Ok(pieces) => {
            let is_refused = Vec::<u8>::with_capacity(alloc, more).is_err();
            drop(pieces);
            is_refused
        }
        Err(_) => false,
    }
}

/// Memory that no one else has, until it is dropped.
#[derive(Drop)]
pub struct Held {
    pieces: Vec<Vec<u8>>,
    rooms: Vec<Vec<u8>>,
}

/// A piece that rooms of these sizes can be cut from, and that is not used up by them.
fn piece_for(alloc: Global, sizes: &[usize]) -> Result<Vec<u8>, AllocError> {
    let mut bytes = FRONT;
    for size in sizes {
        bytes = bytes.saturating_add(*size).saturating_add(2 * STEP);
    }
    Vec::<u8>::with_capacity(alloc, bytes)
}

/// Holds all memory but a room of each of these sizes. A room of up to a KiB serves one growth of just
/// its size.
///
/// The rooms are cut from one piece, while all else is held. What was free before may be some bytes larger than a
/// room, but too few for a piece of their own: it is given whole, and serves no growth of the room's size then.
///
/// # Errors
///
/// `AllocError` where there is no memory for the rooms, or for the lists of what is held.
pub fn all_but(alloc: Global, sizes: &[usize]) -> Result<Held, AllocError> {
    let mut rooms = Vec::with_capacity(alloc, sizes.len())?;
    let piece = piece_for(alloc, sizes)?;
    let mut pieces = all_memory(alloc)?;
    drop(piece);
    take_beside(alloc, sizes, &mut rooms, &mut pieces)?;
    // Without the rooms, but with the list that held them: it would be one more.
    rooms.clear();
    Ok(Held { pieces, rooms })
}

/// Takes a room of each of these sizes, and then all the memory that is left.
fn take_beside(
    alloc: Global,
    sizes: &[usize],
    rooms: &mut Vec<Vec<u8>>,
    pieces: &mut Vec<Vec<u8>>,
) -> Result<(), AllocError> {
    for size in sizes {
        rooms.push(Vec::<u8>::with_capacity(alloc, *size)?)?;
    }
    take_all(alloc, pieces)
}

/// The only memory that there is while a value is made: 24 MiB.
const ROOM: usize = 3 << 23;

/// A size above that of the room. The allocator maps a large piece by itself, by whole pages, until one
/// of its size, or of up to 32 MiB, was given back; from then on it takes such a piece from its heap. So
/// the room is a part of the heap, and what it is divided into costs no pages.
const HEAPED: usize = (1 << 25) - (1 << 16);

/// Holds all memory but a room of 24 MiB, which is a part of the heap.
fn all_but_one_room(alloc: Global) -> Result<Held, AllocError> {
    drop(Vec::<u8>::with_capacity(alloc, HEAPED)?);
    drop(all_memory(alloc)?);
    all_but(alloc, &[ROOM])
}

/// How many bytes the pieces have together.
fn bytes_in(pieces: &[Vec<u8>]) -> usize {
    let mut bytes = 0usize;
    for piece in pieces {
        bytes = bytes.saturating_add(piece.capacity());
    }
    bytes
}

/// A value made where there is no memory but a room of 24 MiB, and how many bytes the allocator gives
/// beside it.
fn left_once<T: Drop, F: Fn() -> T>(alloc: Global, make: &F) -> Result<(T, usize), AllocError>
    requires { F.IsAlwaysCallable make.now }
{
    let mut pieces = Vec::with_capacity(alloc, PIECES)?;
    let held = all_but_one_room(alloc)?;
    // So that it divides the room also where the value takes nothing.
    let front = Vec::<u8>::with_capacity(alloc, FRONT)?;
    let value = make();
    take_all(alloc, &mut pieces)?;
    let left = bytes_in(&pieces);
    drop(pieces);
    drop(front);
    drop(held);
    Ok((value, left))
}

/// A value made where there is no memory but a room of 24 MiB, and how many bytes the allocator gives
/// beside it: the most of three measures, since now and then it keeps some of the room for itself.
///
/// What one value leaves can be compared with what another leaves, up to 64 bytes that the allocator
/// adds to pieces.
///
/// # Errors
///
/// `AllocError` where there is no memory for the room, or for the lists of what is held.
pub fn left_beside<T: Drop, F: Fn() -> T>(alloc: Global, make: F) -> Result<(T, usize), AllocError>
    requires { F.IsAlwaysCallable make }
{
    let (_, first) = left_once(alloc, &make)?;
    let (_, second) = left_once(alloc, &make)?;
    let (value, third) = left_once(alloc, &make)?;
    Ok((value, first.max(second).max(third)))
}

/// The size of the largest piece that the allocator gives now, up to 32 MiB, but for at most 8 bytes.
pub fn largest_piece(alloc: Global) -> usize {
    let (mut found, mut step) = (0usize, 1usize << 25);
    for _ in 0..22 {
        step /= 2;
        let more = found.saturating_add(step);
        if Vec::<u8>::with_capacity(alloc, more).is_ok() {
            found = more;
        }
    }
    found
}

/// The bytes from one size that the allocator gives to the next.
const STEP: usize = 16;

/// In how many steps a call has to succeed: with 40,000 bytes, where the reader of command lines takes 28,000.
const STEPS: usize = 2_500;

/// The bytes before a room, so many that the allocator does not keep them for requests of their size.
const FRONT: usize = 4_096;

/// Rooms of ever more steps, from none on, each after a front.
fn rooms_by_steps(alloc: Global) -> Result<Vec<Vec<u8>>, AllocError> {
    let mut rooms = Vec::with_capacity(alloc, STEPS)?;
    for steps in 0..STEPS {
        rooms.push(Vec::<u8>::with_capacity(alloc, FRONT + STEP * steps)?)?;
    }
    Ok(rooms)
}

/// What a call answers while there is no memory but this room without its front, which serves growth after
/// growth until it is full. What is left of it is taken then.
fn answer_in<E: Drop, F: Fn() -> Option<E>>(
    alloc: Global,
    room: Vec<u8>,
    pieces: &mut Vec<Vec<u8>>,
    call: &F,
) -> Result<Option<E>, AllocError>
    requires { F.IsAlwaysCallable call.now }
{
    drop(room);
    pieces.push(Vec::<u8>::with_capacity(alloc, FRONT)?)?;
    let answer = call();
    take_all(alloc, pieces)?;
    Ok(answer)
}

/// Appends what a call answers in one room after the other, until it succeeds; an answer that comes again
/// is left out.
fn answer_in_each<E: PartialEq + Drop, F: Fn() -> Option<E>>(
    alloc: Global,
    rooms: Vec<Vec<u8>>,
    answers: &mut Vec<Option<E>>,
    call: &F,
) -> Result<(), AllocError>
    requires { F.IsAlwaysCallable call.now }
{
    let mut pieces = all_memory(alloc)?;
    for room in rooms {
        let answer = answer_in(alloc, room, &mut pieces, call)?;
        let succeeds = answer.is_none();
        if answers.last() != Some(&answer) {
            answers.push(answer)?;
        }
        if succeeds {
            break;
        }
    }
    Ok(())
}

/// What a call answers while each growth that it asks for is refused in turn: its answers, of which
/// one that comes again is left out, and then `None`, as it succeeds.
///
/// From call to call there is a step more of memory. A growth takes one step or more, so that each is
/// once the first that is refused, up to the first that is asked for after a list that doubles: the
/// allocator keeps what a list leaves of the room, when it grows in its place, for requests of that
/// size alone.
///
/// # Errors
///
/// `AllocError` where there is no memory for the rooms and the answers. What the call is refused is an answer.
pub fn answers_growth_by_growth<E: PartialEq + Drop, F: Fn() -> Option<E>>(
    alloc: Global,
    call: F,
) -> Result<Vec<Option<E>>, AllocError>
    requires { F.IsAlwaysCallable call }
{
    let mut answers = Vec::with_capacity(alloc, STEPS)?;
    let rooms = rooms_by_steps(alloc)?;
    answer_in_each(alloc, rooms, &mut answers, &call)?;
    Ok(answers)
}
