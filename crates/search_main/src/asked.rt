// The two words that the program is started with, the depth and a file's name. DECISIONS 141 says why it is told a name.
use crate::depth::depth_of;
use sheet_files::words::front;
use std::env::FillError;
use std::rt::Env;

// The bytes of the longest argument that is taken.
pub const MOST_BYTES: usize = 4096;

// The depth, and the file's name.
#[derive(Clone, Copy)]
pub struct Asked<'a> {
    pub depth: u32,
    pub name: &'a [u8],
}

// An argument, in the first bytes of the room; none where it is absent or too long.
fn argument<'a>(rt: &impl Env, i: usize, room: &'a mut [u8]) -> Option<&'a [u8]> {
    let length = rt.arg(i, room).ok()?;
    Some(front(room, length))
}

// Whether there is such an argument, of any length.
fn is_present(rt: &impl Env, i: usize) -> bool {
    let mut room = [0u8; 1];
    !matches!(rt.arg(i, &mut room), Err(FillError::NotPresent))
}

// The depth and the name, which goes into the first bytes of the room; none where they are not as wanted, which has been told.
pub fn ask<'a>(rt: &(impl Env + Eprint), room: &'a mut [u8]) -> Option<Asked<'a>> {
    let mut text = [0u8; MOST_BYTES];
    let (Some(text), Some(name), false) = (
        argument(rt, 1, &mut text),
        argument(rt, 2, room),
        is_present(rt, 3),
    ) else {
        let _ = rt.eprintln("search: two arguments are wanted, the depth and a file's name");
        return None;
    };
    let Some(depth) = depth_of(text) else {
        let _ = rt.eprintln("search: the depth is no number");
        return None;
    };
    Some(Asked { depth, name })
}
